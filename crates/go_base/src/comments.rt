//! White space and comments in front of a file.
ghost use Rattle.std.specs.Prelude.{◌≡◌, ◌<◌, ◌≤◌, ℕ, List, length, drop, Option, Some, None, IfSome, not, ◌==◌, codes, true};
ghost use Rattle.std.specs.List.{list_all};
ghost use Rattle.std.specs.Str.{is_utf8};
ghost use Rattle.go_base.specs.Comments.{is_space, starts_with, close_len, line_len, text_len, comment_len, piece_len, IsFront};

fn close_len(bytes: &[u8]) -> Option<usize>
    ensures len { result ≡ close_len bytes.now }
    ensures within { IfSome result (λ n. n ≤ length bytes.now) }
{
    let mut at = 0;
    while at < bytes.len() {
        if bytes[at..].starts_with(b"*/") {
            return Some(at + 2);
        }
        at += 1;
    }
    None
}

fn line_len(bytes: &[u8]) -> usize
    ensures len { result ≡ line_len bytes.now }
    ensures within { result ≤ length bytes.now }
    ensures begun { starts_with (codes "//") bytes.now ≡ true → 0 < result }
{
    bytes.iter().take_while(|b| **b != b'\n').count()
}

fn is_utf8(bytes: &[u8]) -> bool
    ensures { result ≡ is_utf8 bytes.now }
{
    str::from_utf8(bytes).is_ok()
}

fn has_no_nul(bytes: &[u8]) -> bool
    ensures { result ≡ list_all (λ b. not (b == 0)) bytes.now }
{
    bytes.iter().all(|b| *b != 0)
}

/// So many bytes, where they are UTF-8 without NUL.
pub fn text_len(bytes: &[u8], len: usize) -> Option<usize>
    requires { len ≤ length bytes.now }
    ensures value { result ≡ text_len bytes.now (Some len) }
    ensures same { IfSome result (λ n. n ≡ len) }
{
    let text = &bytes[..len];
    if is_utf8(text) && has_no_nul(text) {
        Some(len)
    } else {
        None
    }
}

/// The length of the comment that the bytes begin with.
#[tactic(auto, unfolding(crate::specs::Comments::comment_len))]
pub fn comment_len(bytes: &[u8]) -> Option<usize>
    ensures len { result ≡ comment_len bytes.now }
    ensures within { IfSome result (λ n. (0 < n) × (n ≤ length bytes.now)) }
{
    if bytes.starts_with(b"//") {
        return text_len(bytes, line_len(bytes));
    }
    if !bytes.starts_with(b"/*") {
        return None;
    }
    match close_len(&bytes[2..]) {
        Some(len) => text_len(bytes, len + 2),
        None => None,
    }
}

/// The length of the white space character or comment that the bytes begin with.
pub fn piece_len(bytes: &[u8]) -> Option<usize>
    ensures len { result ≡ piece_len bytes.now }
    ensures within { IfSome result (λ n. (0 < n) × (n ≤ length bytes.now)) }
{
    match bytes.first()? {
        b' ' | b'\t' | b'\r' | b'\n' => Some(1),
        _ => comment_len(bytes),
    }
}

/// What follows the white space and comments in front.
pub fn past_front(bytes: &[u8]) -> &[u8]
    ensures { (pieces : List (List ℕ)) × IsFront bytes.now pieces result.now }
{
    let mut at = 0;
    while let Some(len) = piece_len(&bytes[at..]) {
        at += len;
    }
    &bytes[at..]
}
