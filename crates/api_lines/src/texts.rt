//! Sets of texts.
ghost use Rattle.std.specs.Prelude.{◌≡◌, [], Decides, IfOk, OnOk};
ghost use Rattle.go_base.specs.Lists.{Has};
ghost use Rattle.go_base.specs.Growing.{Grows};
ghost use Rattle.api_lines.specs.Lines.{HasText};

use crate::line::Line;
use go_base::memory::NoMemory;
use go_base::text::Text;
use std::alloc::Global;
use std::collections::BTreeSet;
use std::marker::Model;

/// Texts, each once.
pub struct Texts {
    set: BTreeSet<Text>,
}

impl Drop for Texts {
    fn drop(self) {
        let Texts { set: _ } = self;
    }
}

impl Model for Texts {
    ghost use Rattle.std.specs.Prelude.{List, ℕ};

    ghost Value = { List (List ℕ) };

    ghost view = { λ t. t.set.keys };
}

// Whether the text is a member.
fn is_member(set: &BTreeSet<Text>, text: &Text) -> bool
    ensures { Decides result (Has set.now.keys text.now) }
{
    set.contains(text)
}

fn put(set: &mut BTreeSet<Text>, text: Text) -> Result<(), NoMemory>
    ensures { OnOk result (Grows (λ member. text ≡ member) set.old.keys set.new.keys) }
{
    let _added = set.insert(text)?;
    Ok(())
}

impl Texts {
    /// No text.
    pub fn new(alloc: Global) -> Texts
        ensures { result ≡ [] }
    {
        Texts {
            set: BTreeSet::new(alloc),
        }
    }

    /// The texts of these lines.
    pub fn of_lines(alloc: Global, lines: &[Line]) -> Result<Texts, NoMemory>
        ensures { IfOk result (λ texts. Grows (HasText lines.now) [] texts) }
    {
        let mut texts = Texts::new(alloc);
        for line in lines {
            texts.add(line.printed(alloc)?)?;
        }
        Ok(texts)
    }

    /// These texts.
    pub fn of(alloc: Global, all: &[Text]) -> Result<Texts, NoMemory>
        ensures { IfOk result (λ texts. Grows (Has all.now) [] texts) }
    {
        let mut texts = Texts::new(alloc);
        for text in all {
            texts.add(text.copy()?)?;
        }
        Ok(texts)
    }

    /// Adds a text, unless it is there.
    pub fn add(&mut self, text: Text) -> Result<(), NoMemory>
        ensures { OnOk result (Grows (λ member. text ≡ member) self.old self.new) }
    {
        put(&mut self.set, text)
    }

    /// Whether the text is there.
    pub fn has(&self, text: &Text) -> bool
        ensures { Decides result (Has self.now text.now) }
    {
        is_member(&self.set, text)
    }
}
