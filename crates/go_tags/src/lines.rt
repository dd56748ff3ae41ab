//! Build lines among the comments of a header.
ghost use Rattle.std.specs.Prelude.{◌≡◌, ◌++◌, ◌∷◌, [], ℕ, List, Option, option_map, codes, true, ◌≤◌, length, if◌then◌else◌, Bool, IfSome, ◌||◌};
ghost use Rattle.std.specs.List.{prefix_len};
ghost use Rattle.go_base.specs.Comments.{is_blank};
ghost use Rattle.go_base.specs.Comments.{starts_with, IsFront};
ghost use Rattle.go_model.specs.files.Headers.{build_texts, ends_word, after_word, build_text, without_blanks, is_plus_line, is_open_after, opening_comment, opening_comments};
ghost use Rattle.go_tags.specs.inner.HeaderLines.{Counts, Sums, IsScan};

use go_base::comments::piece_len;

/// The build lines so far.
#[derive(Clone, Copy)]
pub enum BuildLines<'a> {
    Nothing,
    /// The rest of the one build line.
    One(&'a [u8]),
    Several,
}

/// What the comments so far are.
#[derive(Clone, Copy)]
pub struct Lines<'a> {
    pub build: BuildLines<'a>,
    pub has_plus: bool,
}

/// The header's lines, and what follows the header.
#[derive(Clone, Copy)]
pub struct Scan<'a> {
    pub lines: Lines<'a>,
    pub rest: &'a [u8],
}

fn ends_word(text: &[u8]) -> bool
    ensures { result ≡ ends_word text.now }
{
    match text.first() {
        Some(next) => *next == b' ' || *next == b'\t',
        None => true,
    }
}

#[tactic(auto, unfolding(go_model::specs::files::Headers::after_word))]
fn after_word<'a>(word: &[u8], text: &'a [u8]) -> Option<&'a [u8]>
    ensures { option_map (λ r. r.now) result ≡ after_word word.now text.now }
{
    let rest = text.strip_prefix(word)?;
    if ends_word(rest) { Some(rest) } else { None }
}

fn build_text<'a>(comment: &'a [u8]) -> Option<&'a [u8]>
    ensures { option_map (λ r. r.now) result ≡ build_text comment.now }
{
    after_word(b"//go:build", comment)
}

fn blank_len(text: &[u8]) -> usize
    ensures len { result ≡ prefix_len is_blank text.now }
    ensures within { result ≤ length text.now }
{
    text.iter()
        .take_while(|b| **b == b' ' || **b == b'\t')
        .count()
}

fn without_blanks(text: &[u8]) -> &[u8]
    ensures { result.now ≡ without_blanks text.now }
{
    &text[blank_len(text)..]
}

fn is_plus_line(comment: &[u8]) -> bool
    requires { starts_with (codes "//") comment.now ≡ true }
    ensures { result ≡ is_plus_line comment.now }
{
    after_word(b"+build", without_blanks(&comment[2..])).is_some()
}

fn is_open_after(is_open: bool, piece: &[u8]) -> bool
    ensures { result ≡ is_open_after is_open piece.now }
{
    piece == b"\n".as_slice()
        || (is_open && (piece == b" ".as_slice() || piece == b"\t".as_slice()))
}

fn with_build_line<'a>(build: BuildLines<'a>, comment: &'a [u8]) -> BuildLines<'a>
    ensures { (comments : List (List ℕ)) → Counts (build_texts comments) build.entry → Counts (build_texts (comments ++ comment.now ∷ [])) result }
{
    match build_text(comment) {
        None => build,
        Some(text) => match build {
            BuildLines::Nothing => BuildLines::One(text),
            BuildLines::One(_) | BuildLines::Several => BuildLines::Several,
        },
    }
}

fn with_plus_line(has_plus: bool, comment: &[u8]) -> bool
    requires { starts_with (codes "//") comment.now ≡ true }
    ensures { result ≡ (has_plus || is_plus_line comment.now) }
{
    has_plus || is_plus_line(comment)
}

fn with_comment<'a>(lines: Lines<'a>, comment: &'a [u8]) -> Lines<'a>
    requires { starts_with (codes "//") comment.now ≡ true }
    ensures { (comments : List (List ℕ)) → Sums comments lines.entry → Sums (comments ++ comment.now ∷ []) result }
{
    Lines {
        build: with_build_line(lines.build, comment),
        has_plus: with_plus_line(lines.has_plus, comment),
    }
}

fn with_piece<'a>(lines: Lines<'a>, is_open: bool, piece: &'a [u8]) -> Lines<'a>
    ensures { (comments : List (List ℕ)) → Sums comments lines.entry → Sums (comments ++ opening_comment is_open piece.now) result }
{
    if is_open && piece.starts_with(b"//") {
        with_comment(lines, piece)
    } else {
        lines
    }
}

/// The build lines and plus lines before the first byte that is neither white space nor comment, and
/// what follows.
pub fn scan_header(bytes: &[u8]) -> Scan<'_>
    ensures { IsScan bytes.now result.lines result.rest.now }
{
    let mut lines = Lines {
        build: BuildLines::Nothing,
        has_plus: false,
    };
    let mut is_open = true;
    let mut at = 0;
    while let Some(len) = piece_len(&bytes[at..]) {
        let piece = &bytes[at..at + len];
        lines = with_piece(lines, is_open, piece);
        is_open = is_open_after(is_open, piece);
        at += len;
    }
    Scan {
        lines,
        rest: &bytes[at..],
    }
}
