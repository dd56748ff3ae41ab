//! How reports tell a declaration that is left out.
ghost use Rattle.std.specs.Prelude.{◌≡◌, [], ◌∷◌, ◌++◌, OnOk, IfOk, codes, map, take};
ghost use Rattle.api_refusals.specs.SkippedTexts.{listed_names, skipped_text, skipped_texts, why};
ghost use Rattle.api_refusals.specs.inner.Counts.{Counts};
ghost use Rattle.api_refusals.specs.inner.Readings.{IsReading, skipped_with};
ghost use Rattle.api_refusals.specs.inner.Skipped.{names_behind};
ghost use Rattle.go_exposed.specs.SkippedValues.{all_skipped, cause_of, skipped_of};

use crate::places::Count;
use crate::reading::{Reading, at, open, unit_place_with};
use go_base::list::List;
use go_base::memory::NoMemory;
use go_base::text::Text;
use go_exposed::skipped::{Cause, Skipped};
use go_model::files::tree::Tree;
use go_units::unit::Unit;
use std::alloc::Global;

fn add_why(text: &mut Vec<u8>, cause: &Cause) -> Result<(), NoMemory>
    ensures { OnOk result (text.new.items ≡ text.old.items ++ why (cause_of cause.now)) }
{
    match cause {
        Cause::Number => text.extend_from_slice(b"number")?,
        Cause::ConstantType => text.extend_from_slice(b"constant type")?,
        Cause::ImportNotFound => text.extend_from_slice(b"import not found")?,
        Cause::By(name) => {
            text.extend_from_slice(b"by ")?;
            text.extend_from_slice(name.bytes())?;
        }
    }
    Ok(())
}

// Names behind another one.
fn add_behind(text: &mut Vec<u8>, names: &[Text]) -> Result<(), NoMemory>
    ensures { OnOk result (text.new.items ≡ text.old.items ++ names_behind names.now) }
{
    for name in names {
        text.extend_from_slice(b", ")?;
        text.extend_from_slice(name.bytes())?;
    }
    Ok(())
}

// A name, and more behind it.
#[tactic(auto, using(crate::proofs::SkippedNames::listed_after))]
fn add_more(text: &mut Vec<u8>, name: &Text, more: &[Text]) -> Result<(), NoMemory>
    ensures { OnOk result (text.new.items ≡ text.old.items ++ listed_names (name.now ∷ more.now)) }
{
    text.extend_from_slice(name.bytes())?;
    add_behind(text, more)
}

fn add_names(text: &mut Vec<u8>, names: &[Text]) -> Result<(), NoMemory>
    ensures { OnOk result (text.new.items ≡ text.old.items ++ listed_names names.now) }
{
    match names.split_first() {
        None => Ok(()),
        Some((first, rest)) => add_more(text, first, rest),
    }
}

// `FILE:LINE:COLUMN NAME: CAUSE`, of a declaration to whose place the bytes of its file are counted.
fn skipped_with(
    alloc: Global,
    unit: &Unit,
    bytes: &[u8],
    count: Count,
    skipped: &Skipped,
) -> Result<Text, NoMemory>
    requires counts { Counts bytes.now count }
    requires at { take count.offset bytes.now ≡ take skipped.now.place.offset bytes.now }
    ensures { IfOk result (λ text. text ≡ skipped_with bytes.now unit.now (skipped_of skipped.now)) }
{
    let mut text = unit_place_with(alloc, unit, bytes, count, skipped.place)?;
    text.extend_from_slice(b" ")?;
    add_names(&mut text, skipped.names.items())?;
    text.extend_from_slice(b": ")?;
    add_why(&mut text, &skipped.cause)?;
    Text::from_vec(alloc, text)
}

// The text of one more, and its file as it is counted then.
#[tactic(auto, using(crate::proofs::Readings::as_skipped))]
fn add_skipped<'a>(
    alloc: Global,
    tree: &'a Tree,
    std_tree: &'a Tree,
    unit: &Unit,
    reading: Reading<'a>,
    skipped: &Skipped,
    texts: &mut List<Text>,
) -> Result<Reading<'a>, NoMemory>
    requires reading { IsReading tree.now std_tree.now unit.now reading }
    ensures reading { IfOk result (λ there. IsReading tree.now std_tree.now unit.now there) }
    ensures texts { OnOk result (texts.new ≡ texts.old ++ skipped_text tree.now std_tree.now unit.now (skipped_of skipped.now) ∷ []) }
{
    let there = at(tree, std_tree, unit, reading, skipped.place);
    let text = skipped_with(alloc, unit, there.bytes, there.count, skipped)?;
    texts.push(text)?;
    Ok(there)
}

// The same of all, where the first stands in the file of a number.
fn texts_from(
    alloc: Global,
    tree: &Tree,
    std_tree: &Tree,
    unit: &Unit,
    skipped: &[Skipped],
    number: u32,
) -> Result<List<Text>, NoMemory>
    ensures { IfOk result (λ texts. texts ≡ skipped_texts tree.now std_tree.now unit.now (all_skipped skipped.now)) }
{
    let mut reading = open(tree, std_tree, unit, number);
    let mut texts = List::new(alloc);
    for declaration in skipped {
        reading = add_skipped(
            alloc,
            tree,
            std_tree,
            unit,
            reading,
            declaration,
            &mut texts,
        )?;
    }
    Ok(texts)
}

/// What is left out of a package of two trees: for each declaration `FILE:LINE:COLUMN NAME: CAUSE`.
#[tactic(auto, using(crate::proofs::Readings::none_skipped))]
pub fn skipped_texts(
    alloc: Global,
    tree: &Tree,
    std_tree: &Tree,
    unit: &Unit,
    skipped: &[Skipped],
) -> Result<List<Text>, NoMemory>
    ensures { IfOk result (λ texts. texts ≡ skipped_texts tree.now std_tree.now unit.now (all_skipped skipped.now)) }
{
    if skipped.is_empty() {
        return Ok(List::new(alloc));
    }
    texts_from(alloc, tree, std_tree, unit, skipped, skipped[0].place.file)
}
