//! Characters in bytes, which need not be UTF-8 behind them.
ghost use Rattle.std.specs.Prelude.{◌≡◌, ◌<◌, ◌≤◌, true, ◌++◌, ℕ, length, take, drop, IfSome, IsNone, IsUtf8, IsTrue, ◌↔◌};
ghost use Rattle.std.specs.Char.{IsScalar, encode_utf8, len_utf8};
ghost use Rattle.std.specs.Str.{StartsWithNoChar};
ghost use Rattle.go_base.specs.Characters.{is_letter, is_name_character, is_upper, BeginsPassing, IsRun};
ghost use Rattle.go_base.specs.Alphabets.{has, BeginsWith};

use unicode::properties::GeneralCategory;

/// The characters of names, or of build tags.
#[derive(Clone, Copy, Debug, PartialEq, Eq)]
pub enum Alphabet {
    Name,
    Tag,
}

/// Whether the character is a letter of Go: the underscore is one.
pub fn is_letter(c: char) -> bool
    ensures { result ≡ is_letter c }
{
    c == '_'
        || matches!(
            GeneralCategory::for_char(c),
            GeneralCategory::UppercaseLetter
                | GeneralCategory::LowercaseLetter
                | GeneralCategory::TitlecaseLetter
                | GeneralCategory::ModifierLetter
                | GeneralCategory::OtherLetter
        )
}

/// Whether the character is an upper-case letter of Go.
fn is_upper(c: char) -> bool
    ensures { result ≡ is_upper c }
{
    matches!(
        GeneralCategory::for_char(c),
        GeneralCategory::UppercaseLetter
    )
}

impl Alphabet {
    fn has(self, c: char) -> bool
        ensures { result ≡ has self c }
    {
        let is_in_names = is_letter(c)
            || matches!(GeneralCategory::for_char(c), GeneralCategory::DecimalNumber);
        match self {
            Alphabet::Name => is_in_names,
            Alphabet::Tag => c == '.' || is_in_names,
        }
    }
}

/// The longest front of the bytes that is UTF-8.
fn valid_front(bytes: &[u8]) -> &str
    ensures front { result.now ≡ take (length result.now) bytes.now }
    ensures longest { (n : ℕ) → length result.now < n → n ≤ length bytes.now → IsUtf8 (take n bytes.now) → ⊥ }
{
    match str::from_utf8(bytes) {
        Ok(text) => text,
        Err(error) => match str::from_utf8(&bytes[..error.valid_up_to()]) {
            Ok(text) => text,
            Err(_) => unreachable!(),
        },
    }
}

/// The character that the bytes begin with.
pub fn first_char(bytes: &[u8]) -> Option<char>
    ensures some { IfSome result (λ c. (bytes.now ≡ encode_utf8 c ++ drop (len_utf8 c) bytes.now) × IsScalar c) }
    ensures none { IsNone result → StartsWithNoChar bytes.now }
{
    match bytes.first() {
        Some(b) if *b < 128 => Some(*b as char),
        _ => any_first_char(bytes),
    }
}

/// The same, with no shorter way for ASCII.
fn any_first_char(bytes: &[u8]) -> Option<char>
    ensures some { IfSome result (λ c. (bytes.now ≡ encode_utf8 c ++ drop (len_utf8 c) bytes.now) × IsScalar c) }
    ensures none { IsNone result → StartsWithNoChar bytes.now }
{
    valid_front(&bytes[..bytes.len().min(4)]).chars().next()
}

/// Whether the bytes begin with a letter.
pub fn begins_with_letter(bytes: &[u8]) -> bool
    ensures { IsTrue result ↔ BeginsPassing is_letter bytes.now }
{
    match first_char(bytes) {
        Some(c) => is_letter(c),
        None => false,
    }
}

/// Whether a name is exported: whether it begins with an upper-case letter.
pub fn is_exported(name: &[u8]) -> bool
    ensures { IsTrue result ↔ BeginsPassing is_upper name.now }
{
    match first_char(name) {
        Some(c) => is_upper(c),
        None => false,
    }
}

/// Whether the byte is an ASCII character of names, as most are.
fn is_plain(b: u8) -> bool
    ensures ascii { IsTrue result → b < 128 }
    ensures named { IsTrue result → is_name_character b ≡ true }
{
    b < 128 && (b.is_ascii_alphanumeric() || b == b'_')
}

/// How many bytes the first character takes, where it is of the alphabet.
fn first_len(alphabet: Alphabet, bytes: &[u8]) -> Option<usize>
    ensures some { IfSome result (BeginsWith (has alphabet) bytes.now) }
    ensures none { IsNone result → BeginsPassing (has alphabet) bytes.now → ⊥ }
{
    match bytes.first() {
        Some(b) if is_plain(*b) => Some(1),
        _ => any_first_len(alphabet, bytes),
    }
}

/// The same, with no shorter way for ASCII.
fn any_first_len(alphabet: Alphabet, bytes: &[u8]) -> Option<usize>
    ensures some { IfSome result (BeginsWith (has alphabet) bytes.now) }
    ensures none { IsNone result → BeginsPassing (has alphabet) bytes.now → ⊥ }
{
    match first_char(bytes) {
        Some(c) if alphabet.has(c) => Some(c.len_utf8()),
        _ => None,
    }
}

/// How many bytes the characters of the alphabet take at the front.
pub fn run_len(alphabet: Alphabet, bytes: &[u8]) -> usize
    ensures within { result ≤ length bytes.now }
    ensures run { IsRun (has alphabet) (take result bytes.now) (drop result bytes.now) }
{
    let mut at = 0;
    while let Some(len) = first_len(alphabet, &bytes[at..]) {
        at += len;
    }
    at
}
