//! Paths of packages: which lie under which, the directories named `internal`, and the assumed name of an import path.
ghost use Rattle.std.specs.Prelude.{◌≡◌, ◌<◌, ◌≤◌, ◌∷◌, [], ℕ, length, nat_eq, not, true, IfNone, IfSome, Some, None};
ghost use Rattle.std.specs.List.{slice_split, prefix_len, list_all, starts_with};
ghost use Rattle.std.specs.Option.{option_copied};
ghost use Rattle.go_imports.specs.ImportPaths.{IsUnder, Begins, Ends, IsInternalAt, IsLastInternal, IsInTree, IsInternalUse, is_slash, is_version, is_digit, is_name_byte, unversioned, last_of, without_go, name_front, assumed_name};
ghost use Rattle.go_imports.specs.Answers.{Decides};

fn is_digit(byte: u8) -> bool
    ensures { result ≡ is_digit byte }
{
    matches!(byte, b'0'..=b'9')
}

fn has_only_digits(bytes: &[u8]) -> bool
    ensures { result ≡ list_all is_digit bytes.now }
{
    bytes.iter().all(|byte| is_digit(*byte))
}

fn is_version(name: &[u8]) -> bool
    ensures { result ≡ is_version name.now }
{
    if !name.starts_with(b"v") {
        return false;
    }
    if name.len() < 2 {
        return false;
    }
    has_only_digits(&name[1..])
}

fn is_name_byte(byte: u8) -> bool
    ensures { result ≡ is_name_byte byte }
{
    matches!(byte, b'a'..=b'z' | b'A'..=b'Z' | b'0'..=b'9' | b'_')
}

fn name_length(name: &[u8]) -> usize
    ensures length { result ≡ prefix_len is_name_byte name.now }
    ensures within { result ≤ length name.now }
{
    name.iter().take_while(|byte| is_name_byte(**byte)).count()
}

fn name_front(name: &[u8]) -> &[u8]
    ensures { result.now ≡ name_front name.now }
{
    let length = name_length(name);
    &name[..length]
}

fn without_go(name: &[u8]) -> &[u8]
    ensures { result.now ≡ without_go name.now }
{
    if name.starts_with(b"go-") {
        return &name[3..];
    }
    name
}

fn length_before_slash(path: &[u8]) -> usize
    ensures length { result ≡ prefix_len (λ b. not (nat_eq b 47)) path.now }
    ensures within { result ≤ length path.now }
{
    path.iter().take_while(|byte| **byte != b'/').count()
}

// The bytes before the first slash, and those after it.
fn cut(path: &[u8]) -> Option<(&[u8], &[u8])>
    ensures none { IfNone result (slice_split is_slash path.now ≡ path.now ∷ []) }
    ensures some { IfSome result (λ parts. slice_split is_slash path.now ≡ parts.0.now ∷ slice_split is_slash parts.1.now) }
    ensures shorter { IfSome result (λ parts. length parts.1.now < length path.now) }
{
    let length = length_before_slash(path);
    if length == path.len() {
        return None;
    }
    let (before, _) = path.split_at(length);
    let (_, rest) = path.split_at(length + 1);
    Some((before, rest))
}

fn unversioned<'a>(before: Option<&'a [u8]>, last: &'a [u8]) -> &'a [u8]
    ensures { result.now ≡ unversioned (option_copied before.entry) last.now }
{
    match before {
        None => last,
        Some(before) => { if is_version(last) { before } else { last } }
    }
}

fn last_of(path: &[u8]) -> &[u8]
    ensures { result.now ≡ last_of None (slice_split is_slash path.now) }
{
    let mut before = None;
    let mut rest = path;
    while let Some((part, more)) = cut(rest) {
        before = Some(part);
        rest = more;
    }
    unversioned(before, rest)
}

/// The assumed name of an import path, where nothing says the package's name: the last element of the path, or
/// where that is `v` and digits the one before it, without a leading `go-`, up to the first byte that is no ASCII letter,
/// digit or `_`. It may be empty.
pub fn assumed_name(path: &[u8]) -> &[u8]
    ensures { result.now ≡ assumed_name path.now }
{
    name_front(without_go(last_of(path)))
}

fn begins_with(path: &[u8], root: &[u8]) -> bool
    ensures value { result ≡ starts_with nat_eq path.now root.now }
    ensures bound { result ≡ true → length root.now ≤ length path.now }
{
    path.starts_with(root)
}

/// Whether a path equals another or lies under it.
pub fn is_under(path: &[u8], root: &[u8]) -> bool
    ensures { Decides result (IsUnder path.now root.now) }
{
    if !begins_with(path, root) {
        return false;
    }
    if path.len() == root.len() {
        return true;
    }
    path[root.len()] == b'/'
}

fn begins_element(path: &[u8], at: usize) -> bool
    requires { at ≤ length path.now }
    ensures { Decides result (Begins path.now at) }
{
    if at == 0 {
        return true;
    }
    path[at - 1] == b'/'
}

fn ends_element(path: &[u8], end: usize) -> bool
    requires { end ≤ length path.now }
    ensures { Decides result (Ends path.now end) }
{
    if end == path.len() {
        return true;
    }
    path[end] == b'/'
}

fn is_internal_at(path: &[u8], at: usize) -> bool
    requires { at ≤ length path.now }
    ensures { Decides result (IsInternalAt path.now at) }
{
    if path.len() - at < 8 {
        return false;
    }
    if !path[at..].starts_with(b"internal") {
        return false;
    }
    if !begins_element(path, at) {
        return false;
    }
    ends_element(path, at + 8)
}

fn last_internal(path: &[u8]) -> Option<usize>
    ensures some { IfSome result (IsLastInternal path.now) }
    ensures none { IfNone result ((k : ℕ) → IsInternalAt path.now k → ⊥) }
{
    let mut at = path.len();
    while at > 0 {
        at -= 1;
        if is_internal_at(path, at) {
            return Some(at);
        }
    }
    None
}

fn is_in_tree(importer: &[u8], from_std: bool, path: &[u8], at: usize) -> bool
    requires { at ≤ length path.now }
    ensures { Decides result (IsInTree importer.now from_std path.now at) }
{
    if at == 0 {
        return from_std;
    }
    is_under(importer, &path[..at - 1])
}

/// Whether a package may not import a path, since the path's last element `internal` stands in a directory that the
/// importer's path neither equals nor lies under. Where the path begins with that element, only a package of the standard
/// library may.
pub fn is_internal_use(importer: &[u8], from_std: bool, path: &[u8]) -> bool
    ensures { Decides result (IsInternalUse importer.now from_std path.now) }
{
    match last_internal(path) {
        None => false,
        Some(at) => !is_in_tree(importer, from_std, path, at),
    }
}
