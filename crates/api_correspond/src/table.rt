//! Pairs of types, each once, by number.
ghost use Rattle.std.specs.Prelude.{◌≡◌, [], IfOk, OnOk};
ghost use Rattle.api_correspond.specs.inner.Tables.{InStep, AddsPair, AddsAt, ItemAt};

use go_base::memory::NoMemory;
use go_base::text::Text;
use go_type_codes::codes::pair_code;
use go_type_images::pair::TypePair;
use indexmap::IndexSet;
use std::alloc::Global;

/// Pairs of types in the order in which they were found, and the bytes of each in the same order.
#[derive(Drop)]
pub struct PairTable {
    pub codes: IndexSet<Text>,
    pub pairs: Vec<TypePair>,
}

/// Adds a text to a set, where it isn't there, and tells its number and whether it is new.
pub fn add_text(texts: &mut IndexSet<Text>, text: Text) -> Result<(usize, bool), NoMemory>
    ensures { IfOk result (λ r. AddsAt texts.old.keys texts.new.keys text r.0 r.1) }
{
    Ok(texts.insert_full(text)?)
}

impl PairTable {
    /// No pair.
    pub fn new(alloc: Global) -> PairTable
        ensures in_step { InStep result.codes.keys result.pairs.items }
        ensures empty { result.pairs.items ≡ [] }
    {
        PairTable {
            codes: IndexSet::new(alloc),
            pairs: Vec::new(alloc),
        }
    }

    /// Adds a pair, where it isn't there, and tells its number.
    pub fn add(&mut self, alloc: Global, pair: TypePair) -> Result<usize, NoMemory>
        requires { InStep self.old.codes.keys self.old.pairs.items }
        ensures in_step { OnOk result (InStep self.new.codes.keys self.new.pairs.items) }
        ensures adds { IfOk result (AddsPair self.old.pairs.items self.new.pairs.items pair) }
    {
        let code = pair_code(alloc, &pair)?;
        let (at, fresh) = add_text(&mut self.codes, code)?;
        if fresh {
            self.pairs.push(pair)?;
        }
        Ok(at)
    }

    /// The pair of a number, where there is one.
    pub fn get(&self, at: usize) -> Option<&TypePair>
        ensures { ItemAt self.now.pairs.items at result }
    {
        match self.pairs.get(at) {
            Some(pair) => Some(pair),
            None => None,
        }
    }
}
