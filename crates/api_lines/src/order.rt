//! The order of lines by their texts, as far as it can be told without printing these.
ghost use Rattle.std.specs.Prelude.{◌≡◌, ◌++◌, ℕ, List as Sequence, Option as Choice, true, codes, IfSome};
ghost use Rattle.std.specs.Ordering.{nat_cmp};
ghost use Rattle.std.specs.Cmp.Lexicographic.{slice_cmp};
ghost use Rattle.std.specs.declared.cmp.Ordering.TheVariants.{Less};
ghost use Rattle.go_model.specs.declared.files.platform.Platform.{Platform as Place};
ghost use Rattle.go_model.specs.files.Platforms.{name_of};
ghost use Rattle.api_lines.specs.Lines.{context_text, printed};

use crate::line::Line;
use go_model::files::platform::Platform;
use std::cmp::Ordering;

// Whether all lines of one path come before those of another. A blank or a comma follows a path.
fn is_path_before(path: &[u8], other: &[u8]) -> bool
    ensures { result ≡ true → (c d : Choice Place) (x y : Sequence ℕ) → slice_cmp nat_cmp (path.now ++ context_text c ++ codes ", " ++ x) (other.now ++ context_text d ++ codes ", " ++ y) ≡ Less }
{
    for i in 0..path.len() {
        if other.len() <= i {
            return false;
        }
        if path[i] != other[i] {
            return path[i] < other[i];
        }
    }
    path.len() < other.len() && b',' < other[path.len()]
}

// Whether all texts that begin with a name and a closing parenthesis come before those that begin so with another name.
fn is_name_before(name: &[u8], other: &[u8]) -> bool
    ensures { result ≡ true → (x y : Sequence ℕ) → slice_cmp nat_cmp (name.now ++ codes ")" ++ x) (other.now ++ codes ")" ++ y) ≡ Less }
{
    for i in 0..name.len() {
        if other.len() <= i {
            return false;
        }
        if name[i] != other[i] {
            return name[i] < other[i];
        }
    }
    name.len() < other.len() && b')' < other[name.len()]
}

// The order of lines of one path on two platforms; None where it isn't told by their names.
fn order_of_platforms(platform: Platform, other: Platform) -> Option<Ordering>
    ensures { IfSome result (λ order. (x y : Sequence ℕ) → order ≡ slice_cmp nat_cmp (name_of platform ++ codes ")" ++ x) (name_of other ++ codes ")" ++ y)) }
{
    if is_name_before(platform.name(), other.name()) {
        return Some(Ordering::Less);
    }
    if is_name_before(other.name(), platform.name()) {
        return Some(Ordering::Greater);
    }
    None
}

// The order of lines of one path: one with a context comes before those without, the names of two platforms decide, and else the rests.
fn order_in_package(line: &Line, other: &Line) -> Option<Ordering>
    requires { line.now.path ≡ other.now.path }
    ensures { IfSome result (λ order. order ≡ slice_cmp nat_cmp (printed line.now) (printed other.now)) }
{
    match (line.context, other.context) {
        (None, None) => Some(line.rest.cmp(&other.rest)),
        (None, Some(_)) => Some(Ordering::Greater),
        (Some(_), None) => Some(Ordering::Less),
        (Some(platform), Some(on)) => {
            if platform == on {
                return Some(line.rest.cmp(&other.rest));
            }
            order_of_platforms(platform, on)
        }
    }
}

/// The order of two lines by their texts; None where it isn't told without printing them, as that of paths of which one goes on behind
/// the other with a byte that comes before a comma.
pub(crate) fn known_order(line: &Line, other: &Line) -> Option<Ordering>
    ensures { IfSome result (λ order. order ≡ slice_cmp nat_cmp (printed line.now) (printed other.now)) }
{
    match line.path.cmp(&other.path) {
        Ordering::Less => {
            if is_path_before(line.path.bytes(), other.path.bytes()) {
                return Some(Ordering::Less);
            }
            None
        }
        Ordering::Equal => order_in_package(line, other),
        Ordering::Greater => {
            if is_path_before(other.path.bytes(), line.path.bytes()) {
                return Some(Ordering::Greater);
            }
            None
        }
    }
}

/// Whether the text of a line is known to come before that of another.
pub(crate) fn is_before(line: &Line, other: &Line) -> bool
    ensures { result ≡ true → slice_cmp nat_cmp (printed line.now) (printed other.now) ≡ Less }
{
    match known_order(line, other) {
        Some(order) => order.is_lt(),
        None => false,
    }
}
