//! The parts of a feature line.
ghost use Rattle.std.specs.Prelude.{◌≡◌, ◌≢◌, ◌++◌, ◌≤◌, ℕ, List as Sequence, Option as Maybe, Some, length, IfSome, IsNone};
ghost use Rattle.std.specs.List.{position_or_len};
ghost use Rattle.api_frozen.specs.LineShapes.{HasParts, IsAfterPath, IsFeatureLine};
ghost use Rattle.api_frozen.specs.inner.Readings.{context_of, ends_of, IsFollowed, IsSplit, IsStopped};

use crate::shapes::End;

/// The path, the context and the rest of a feature line.
#[derive(Drop)]
pub(crate) struct Parts<'a> {
    pub(crate) path: &'a [u8],
    pub(crate) context: Option<&'a [u8]>,
    pub(crate) rest: &'a [u8],
}

// The context and the rest of a feature line.
#[derive(Drop)]
struct AfterPath<'a> {
    context: Option<&'a [u8]>,
    rest: &'a [u8],
}

impl End {
    fn ends(self, byte: u8) -> bool
        ensures { result ≡ ends_of self byte }
    {
        match self {
            End::Path => byte == b' ' || byte == b'\t' || byte == b',',
            End::Context => byte == b')',
        }
    }
}

fn strip<'a>(bytes: &'a [u8], front: &[u8]) -> Option<&'a [u8]>
    ensures some { IfSome result (λ rest. bytes.now ≡ front.now ++ rest.now) }
    ensures none { IsNone result → (rest : Sequence ℕ) → bytes.now ≡ front.now ++ rest → ⊥ }
{
    bytes.strip_prefix(front)
}

// What follows a front, where anything does.
fn rest_after<'a>(bytes: &'a [u8], front: &[u8]) -> Option<&'a [u8]>
    ensures some { IfSome result (λ rest. IsFollowed front.now bytes.now rest.now) }
    ensures none { IsNone result → (rest : Sequence ℕ) → IsFollowed front.now bytes.now rest → ⊥ }
{
    let Some(rest) = strip(bytes, front) else {
        return None;
    };
    if rest.is_empty() {
        return None;
    }
    Some(rest)
}

fn word_len(end: End, bytes: &[u8]) -> usize
    ensures len { result ≡ position_or_len (ends_of end) bytes.now }
    ensures within { result ≤ length bytes.now }
{
    bytes.iter().take_while(|b| !end.ends(**b)).count()
}

// The word that the bytes begin with, and what follows it.
fn word<'a>(end: End, bytes: &'a [u8]) -> Option<(&'a [u8], &'a [u8])>
    ensures some { IfSome result (λ p. IsSplit (ends_of end) bytes.now p.0.now p.1.now) }
    ensures none { IsNone result → IsStopped (ends_of end) bytes.now }
{
    let len = word_len(end, bytes);
    if len == 0 {
        return None;
    }
    Some((&bytes[..len], &bytes[len..]))
}

// A context and the rest.
fn in_context<'a>(bytes: &'a [u8]) -> Option<AfterPath<'a>>
    ensures some { IfSome result (λ p. IsAfterPath bytes.now (context_of p.context) p.rest.now) }
    ensures none { IsNone result → (context rest : Sequence ℕ) → IsAfterPath bytes.now (Some context) rest → ⊥ }
{
    let Some(after) = strip(bytes, b" (") else {
        return None;
    };
    let Some((context, after)) = word(End::Context, after) else {
        return None;
    };
    let Some(rest) = rest_after(after, b"), ") else {
        return None;
    };
    Some(AfterPath {
        context: Some(context),
        rest,
    })
}

// A context or none, and the rest.
fn after_path<'a>(bytes: &'a [u8]) -> Option<AfterPath<'a>>
    ensures some { IfSome result (λ p. IsAfterPath bytes.now (context_of p.context) p.rest.now) }
    ensures none { IsNone result → (context : Maybe (Sequence ℕ)) (rest : Sequence ℕ) → IsAfterPath bytes.now context rest → ⊥ }
{
    if let Some(rest) = rest_after(bytes, b", ") {
        return Some(AfterPath {
            context: None,
            rest,
        });
    }
    in_context(bytes)
}

/// The parts of a text that is a feature line.
pub(crate) fn parts_of<'a>(text: &'a [u8]) -> Option<Parts<'a>>
    ensures some { IfSome result (λ p. HasParts text.now p.path.now (context_of p.context) p.rest.now) }
    ensures none { IsNone result → IsFeatureLine text.now → ⊥ }
{
    let Some(after) = strip(text, b"pkg ") else {
        return None;
    };
    let Some((path, after)) = word(End::Path, after) else {
        return None;
    };
    let Some(end) = after_path(after) else {
        return None;
    };
    Some(Parts {
        path,
        context: end.context,
        rest: end.rest,
    })
}
