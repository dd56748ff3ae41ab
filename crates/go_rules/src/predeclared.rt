//! The universe block.
ghost use Rattle.std.specs.Prelude.{◌≡◌};
ghost use Rattle.go_rules.specs.Universe.{found_in, predeclared};
ghost use Rattle.go_rules.specs.inner.Rows.{rows_of};

/// A name of the universe block, after "Predeclared identifiers" of the Go specification. Generic names
/// (`comparable`) and the names of floating-point complex arithmetic (`complex`, `real`, `imag`) aren't in
/// this profile.
#[derive(Clone, Copy, Debug, PartialEq, Eq)]
pub enum Predeclared {
    Any,
    Bool,
    Byte,
    Complex64,
    Complex128,
    Error,
    Float32,
    Float64,
    Int,
    Int8,
    Int16,
    Int32,
    Int64,
    Rune,
    Str,
    Uint,
    Uint8,
    Uint16,
    Uint32,
    Uint64,
    Uintptr,
    True,
    False,
    Iota,
    Nil,
    Append,
    Cap,
    Close,
    Copy,
    Delete,
    Len,
    Make,
    New,
    Panic,
    Print,
    Println,
    Recover,
}

struct Row {
    name: &'static [u8],
    predeclared: Predeclared,
}

#[rattlefmt::skip]
const UNIVERSE: [Row; 37] = [
    Row { name: b"any",        predeclared: Predeclared::Any },
    Row { name: b"bool",       predeclared: Predeclared::Bool },
    Row { name: b"byte",       predeclared: Predeclared::Byte },
    Row { name: b"complex64",  predeclared: Predeclared::Complex64 },
    Row { name: b"complex128", predeclared: Predeclared::Complex128 },
    Row { name: b"error",      predeclared: Predeclared::Error },
    Row { name: b"float32",    predeclared: Predeclared::Float32 },
    Row { name: b"float64",    predeclared: Predeclared::Float64 },
    Row { name: b"int",        predeclared: Predeclared::Int },
    Row { name: b"int8",       predeclared: Predeclared::Int8 },
    Row { name: b"int16",      predeclared: Predeclared::Int16 },
    Row { name: b"int32",      predeclared: Predeclared::Int32 },
    Row { name: b"int64",      predeclared: Predeclared::Int64 },
    Row { name: b"rune",       predeclared: Predeclared::Rune },
    Row { name: b"string",     predeclared: Predeclared::Str },
    Row { name: b"uint",       predeclared: Predeclared::Uint },
    Row { name: b"uint8",      predeclared: Predeclared::Uint8 },
    Row { name: b"uint16",     predeclared: Predeclared::Uint16 },
    Row { name: b"uint32",     predeclared: Predeclared::Uint32 },
    Row { name: b"uint64",     predeclared: Predeclared::Uint64 },
    Row { name: b"uintptr",    predeclared: Predeclared::Uintptr },
    Row { name: b"true",       predeclared: Predeclared::True },
    Row { name: b"false",      predeclared: Predeclared::False },
    Row { name: b"iota",       predeclared: Predeclared::Iota },
    Row { name: b"nil",        predeclared: Predeclared::Nil },
    Row { name: b"append",     predeclared: Predeclared::Append },
    Row { name: b"cap",        predeclared: Predeclared::Cap },
    Row { name: b"close",      predeclared: Predeclared::Close },
    Row { name: b"copy",       predeclared: Predeclared::Copy },
    Row { name: b"delete",     predeclared: Predeclared::Delete },
    Row { name: b"len",        predeclared: Predeclared::Len },
    Row { name: b"make",       predeclared: Predeclared::Make },
    Row { name: b"new",        predeclared: Predeclared::New },
    Row { name: b"panic",      predeclared: Predeclared::Panic },
    Row { name: b"print",      predeclared: Predeclared::Print },
    Row { name: b"println",    predeclared: Predeclared::Println },
    Row { name: b"recover",    predeclared: Predeclared::Recover },
];

fn find(rows: &[Row], name: &[u8]) -> Option<Predeclared>
    ensures { result ≡ found_in (rows_of rows.now) name.now }
{
    for row in rows {
        if row.name == name {
            return Some(row.predeclared);
        }
    }
    None
}

/// What the universe has under a name: None exactly where it has no such name.
pub fn universe(name: &[u8]) -> Option<Predeclared>
    ensures { result ≡ predeclared name.now }
{
    find(&UNIVERSE, name)
}
