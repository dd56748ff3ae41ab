//! The names of basic types.
use go_model::constants::value::Basic;

/// The basic type of this name.
pub fn basic(word: &str) -> Option<Basic> {
    match word {
        "bool" => Some(Basic::Bool),
        "int" => Some(Basic::Int),
        "int8" => Some(Basic::Int8),
        "int16" => Some(Basic::Int16),
        "int32" => Some(Basic::Int32),
        "int64" => Some(Basic::Int64),
        "uint" => Some(Basic::Uint),
        "uint8" => Some(Basic::Uint8),
        "uint16" => Some(Basic::Uint16),
        "uint32" => Some(Basic::Uint32),
        "uint64" => Some(Basic::Uint64),
        "uintptr" => Some(Basic::Uintptr),
        "float32" => Some(Basic::Float32),
        "float64" => Some(Basic::Float64),
        "complex64" => Some(Basic::Complex64),
        "complex128" => Some(Basic::Complex128),
        "string" => Some(Basic::Str),
        _ => None,
    }
}

/// The name of a basic type.
pub fn name(basic: Basic) -> &'static str {
    match basic {
        Basic::Bool => "bool",
        Basic::Int => "int",
        Basic::Int8 => "int8",
        Basic::Int16 => "int16",
        Basic::Int32 => "int32",
        Basic::Int64 => "int64",
        Basic::Uint => "uint",
        Basic::Uint8 => "uint8",
        Basic::Uint16 => "uint16",
        Basic::Uint32 => "uint32",
        Basic::Uint64 => "uint64",
        Basic::Uintptr => "uintptr",
        Basic::Float32 => "float32",
        Basic::Float64 => "float64",
        Basic::Complex64 => "complex64",
        Basic::Complex128 => "complex128",
        Basic::Str => "string",
    }
}
