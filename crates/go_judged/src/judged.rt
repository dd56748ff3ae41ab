//! What is found in a part of a statement.
ghost use Rattle.std.specs.Prelude.{◌≡◌, ◌&&◌, min};
ghost use Rattle.go_judged.specs.Judging.{both, found, is_clean, tested, with_test};
ghost use Rattle.go_untyped_places.specs.Surveys.{lesser};

/// Whether a part is typed, and the least of the untyped places in the statements inside of it, where there is one.
#[derive(Clone, Copy)]
pub struct Judged {
    pub typed: bool,
    pub place: Option<u32>,
}

fn least(left: u32, right: u32) -> u32
    ensures { result ≡ min left right }
{
    if left < right { left } else { right }
}

fn lesser_than(left: u32, right: Option<u32>) -> Option<u32>
    ensures { result ≡ lesser (Some left) right }
{
    match right {
        Some(place) => Some(least(left, place)),
        None => Some(left),
    }
}

fn lesser(left: Option<u32>, right: Option<u32>) -> Option<u32>
    ensures { result ≡ lesser left right }
{
    match left {
        Some(place) => lesser_than(place, right),
        None => right,
    }
}

fn is_clean(place: Option<u32>) -> bool
    ensures { result ≡ is_clean place }
{
    match place {
        Some(_) => false,
        None => true,
    }
}

impl Judged {
    /// A part without statements inside of it.
    pub fn tested(typed: bool) -> Judged
        ensures { result ≡ tested typed }
    {
        Judged { typed, place: None }
    }

    /// Statements, by their untyped place.
    pub fn found(place: Option<u32>) -> Judged
        ensures { result ≡ found place }
    {
        Judged {
            typed: is_clean(place),
            place,
        }
    }

    /// Two parts together.
    pub fn both(self, other: Judged) -> Judged
        ensures { result ≡ both self other }
    {
        Judged {
            typed: self.typed && other.typed,
            place: lesser(self.place, other.place),
        }
    }

    /// A part in which more is asked than of the statements inside of it.
    pub fn with_test(self, typed: bool) -> Judged
        ensures { result ≡ with_test self typed }
    {
        Judged {
            typed: self.typed && typed,
            place: self.place,
        }
    }
}
