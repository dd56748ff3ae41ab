//! Which files a platform chooses.
ghost use Rattle.std.specs.Prelude.{◌≡◌, ◌++◌, ◌∷◌, [], None, Some, Option, reverse, map, option_map, drop, ◌==◌};
ghost use Rattle.std.specs.List.{position, before_first, list_any, list_all};
ghost use Rattle.go_model.specs.files.BuildTags.{is_satisfied};
ghost use Rattle.go_model.specs.files.BuildValues.{last_demanded, holds, name_parts, without_test, demanded, name_holds, is_chosen};
ghost use Rattle.go_tags.specs.inner.NameParts.{parts_back, IsCutAtLast};

use crate::tags::{is_known_architecture, is_known_system, is_satisfied};
use go_model::files::build::Constraint;
use go_model::files::platform::Platform;

/// The last part of a name's parts, which are joined by `_`, and the parts before it.
#[derive(Clone, Copy)]
struct NameEnd<'a> {
    before: Option<&'a [u8]>,
    last: &'a [u8],
}

fn cut_at_last<'a>(parts: &'a [u8]) -> NameEnd<'a>
    ensures { IsCutAtLast parts.now (option_map (λ x. x.now) result.before) result.last.now }
{
    let mut at = parts.len();
    while at > 0 {
        at -= 1;
        if parts[at] == b'_' {
            return NameEnd {
                before: Some(&parts[..at]),
                last: &parts[at + 1..],
            };
        }
    }
    NameEnd {
        before: None,
        last: parts,
    }
}

fn is_last_satisfied(platform: Platform, last: &[u8]) -> bool
    ensures { result ≡ list_all (is_satisfied platform) (last_demanded last.now) }
{
    let is_constrained = is_known_system(last) || is_known_architecture(last);
    !is_constrained || is_satisfied(platform, last)
}

fn is_end_satisfied(platform: Platform, parts: &[u8]) -> bool
    ensures { result ≡ list_all (is_satisfied platform) (demanded (parts_back parts.now)) }
{
    let end = cut_at_last(parts);
    if let Some(before) = end.before {
        let previous = cut_at_last(before).last;
        if is_known_system(previous) && is_known_architecture(end.last) {
            return is_satisfied(platform, previous) && is_satisfied(platform, end.last);
        }
    }
    is_last_satisfied(platform, end.last)
}

fn are_parts_satisfied(platform: Platform, parts: &[u8]) -> bool
    ensures { result ≡ list_all (is_satisfied platform) (demanded (without_test (parts_back parts.now))) }
{
    let end = cut_at_last(parts);
    if end.last != b"test".as_slice() {
        return is_end_satisfied(platform, parts);
    }
    match end.before {
        None => true,
        Some(before) => is_end_satisfied(platform, before),
    }
}

fn position_of(byte: u8, text: &[u8]) -> Option<usize>
    ensures { result ≡ position (λ b. b == byte) text.now }
{
    text.iter().position(|b| *b == byte)
}

fn stem_of(file_name: &[u8]) -> &[u8]
    ensures { result.now ≡ before_first (λ b. b == 46) file_name.now }
{
    match position_of(b'.', file_name) {
        None => file_name,
        Some(dot) => &file_name[..dot],
    }
}

fn does_name_hold(platform: Platform, file_name: &[u8]) -> bool
    ensures { result ≡ name_holds platform file_name.now }
{
    let stem = stem_of(file_name);
    match position_of(b'_', stem) {
        None => true,
        Some(underscore) => are_parts_satisfied(platform, &stem[underscore + 1..]),
    }
}

/// Whether the expression holds on the platform.
fn does_hold(platform: Platform, constraint: &Constraint) -> bool
    ensures { result ≡ holds platform constraint.now }
{
    match constraint {
        Constraint::Or(first, others) => {
            if does_hold(platform, first.value()) {
                return true;
            }
            for other in others.items() {
                if does_hold(platform, other) {
                    return true;
                }
            }
            false
        }
        Constraint::And(first, others) => {
            if !does_hold(platform, first.value()) {
                return false;
            }
            for other in others.items() {
                if !does_hold(platform, other) {
                    return false;
                }
            }
            true
        }
        Constraint::Not(operand) => !does_hold(platform, operand.value()),
        Constraint::Paren(inner) => does_hold(platform, inner.value()),
        Constraint::Tag(tag) => is_satisfied(platform, tag.bytes()),
    }
}

/// Whether the file with this name and build expression belongs to its package on the platform.
/// The name is the last element of the file's path, in bytes.
pub fn chosen(platform: Platform, file_name: &[u8], constraint: Option<&Constraint>) -> bool
    ensures { result ≡ is_chosen platform file_name.now (option_map (λ c. c.now) constraint.entry) }
{
    if !does_name_hold(platform, file_name) {
        return false;
    }
    match constraint {
        None => true,
        Some(constraint) => does_hold(platform, constraint),
    }
}
