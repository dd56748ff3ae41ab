//! The parts of a build expression that are left to read.
ghost use Rattle.std.specs.Prelude.{◌≡◌, drop, length, slice_get, option_map};

use go_model::files::build::ConstraintPart;
use std::marker::Model;

/// The parts that are left.
#[derive(Drop)]
pub struct Cursor<'a> {
    rest: &'a [ConstraintPart],
}

impl<'a> Model for Cursor<'a> {
    ghost use Rattle.std.specs.Prelude.{List};
    ghost use Rattle.go_model.specs.declared.files.build.ConstraintPart.{ConstraintPart};

    ghost Value = { List ConstraintPart };

    ghost view = { λ c. c.rest.now };
}

impl<'a> Cursor<'a> {
    /// All of these parts.
    pub fn new(parts: &'a [ConstraintPart]) -> Cursor<'a>
        ensures { result ≡ parts.now }
    {
        Cursor { rest: parts }
    }

    /// The next part.
    pub fn peek(&self) -> Option<&'a ConstraintPart>
        ensures { option_map (λ p. p.now) result ≡ slice_get self.now 0 }
    {
        self.rest.first()
    }

    /// Goes past a part.
    pub fn advance(&mut self)
        ensures { self.new ≡ drop 1 self.old }
    {
        if let Some((_, rest)) = self.rest.split_first() {
            self.rest = rest;
        }
    }

    /// How many parts are left.
    pub fn len(&self) -> usize
        ensures { result ≡ length self.now }
    {
        self.rest.len()
    }
}
