//! The parts of a question.
use crate::refusal::Refusal;
use api_advice::class::Class;
use api_lines::line::Line;
use go_base::list::List;
use go_base::text::Text;
use go_model::constants::value::{Basic, BinaryOp, Kind, Untyped};
use go_model::files::platform::Platform;
use hex::FromHexError;
use semver::{Error, Version};
use std::alloc::{AllocError, Global};

/// The class of this name.
pub fn class(word: &str) -> Result<Class, Refusal> {
    match word {
        "major" => Ok(Class::Major),
        "minor" => Ok(Class::Minor),
        "patch" => Ok(Class::Patch),
        _ => Err(Refusal::NotAQuestion),
    }
}

/// The version that the word is, where it is one.
pub fn version(alloc: Global, word: &str) -> Result<Option<Version>, Refusal> {
    match Version::parse(alloc, word) {
        Ok(version) => Ok(Some(version)),
        Err(error) if error == Error::from(AllocError) => Err(Refusal::NoMemory),
        Err(_) => Ok(None),
    }
}

/// The bytes with these hexadecimal digits.
pub fn bytes(alloc: Global, digits: &str) -> Result<Vec<u8>, Refusal> {
    match hex::decode(alloc, digits) {
        Ok(bytes) => Ok(bytes),
        Err(FromHexError::OutOfMemory) => Err(Refusal::NoMemory),
        Err(_) => Err(Refusal::NotAQuestion),
    }
}

/// The operator, of the five that questions name.
pub fn operator(word: &str) -> Result<BinaryOp, Refusal> {
    match word {
        "+" => Ok(BinaryOp::Add),
        "/" => Ok(BinaryOp::Divide),
        "%" => Ok(BinaryOp::Remainder),
        "&^" => Ok(BinaryOp::AndNot),
        "&&" => Ok(BinaryOp::LogicalAnd),
        _ => Err(Refusal::NotAQuestion),
    }
}

/// The kind of this name, of the five that questions name.
pub fn kind(word: &str) -> Result<Kind, Refusal> {
    match word {
        "int" => Ok(Kind::Typed(Basic::Int)),
        "float64" => Ok(Kind::Typed(Basic::Float64)),
        "string" => Ok(Kind::Typed(Basic::Str)),
        "untyped-rune" => Ok(Kind::Loose(Untyped::RuneKind)),
        "untyped-bool" => Ok(Kind::Loose(Untyped::BoolKind)),
        _ => Err(Refusal::NotAQuestion),
    }
}

/// The platform of this name, of the four that questions name.
pub fn platform(word: &str) -> Result<Platform, Refusal> {
    match word {
        "linux-386" => Ok(Platform::Linux386),
        "linux-amd64" => Ok(Platform::LinuxAmd64),
        "windows-386" => Ok(Platform::Windows386),
        "windows-amd64" => Ok(Platform::WindowsAmd64),
        _ => Err(Refusal::NotAQuestion),
    }
}

fn text(alloc: Global, word: &str) -> Result<Text, Refusal> {
    Ok(Text::of(alloc, word.as_bytes())?)
}

/// The texts between semicolons; no text at all is none.
pub fn texts(alloc: Global, words: &str) -> Result<List<Text>, Refusal> {
    let mut all = List::new(alloc);
    if words.is_empty() {
        return Ok(all);
    }
    for word in words.split(';') {
        all.push(text(alloc, word)?)?;
    }
    Ok(all)
}

fn path_and_context(front: &str) -> Result<(&str, Option<Platform>), Refusal> {
    match front.split_once(" (") {
        None => Ok((front, None)),
        Some((path, rest)) => match rest.strip_suffix(')') {
            Some(name) => Ok((path, Some(platform(name)?))),
            None => Err(Refusal::NotAQuestion),
        },
    }
}

fn line(alloc: Global, word: &str) -> Result<Line, Refusal> {
    let Some(word) = word.strip_prefix("pkg ") else {
        return Err(Refusal::NotAQuestion);
    };
    let Some((front, rest)) = word.split_once(", ") else {
        return Err(Refusal::NotAQuestion);
    };
    let (path, context) = path_and_context(front)?;
    Ok(Line {
        path: text(alloc, path)?,
        context,
        rest: text(alloc, rest)?,
    })
}

/// The feature lines between semicolons; no text at all is none.
pub fn lines(alloc: Global, words: &str) -> Result<List<Line>, Refusal> {
    let mut all = List::new(alloc);
    if words.is_empty() {
        return Ok(all);
    }
    for word in words.split(';') {
        all.push(line(alloc, word)?)?;
    }
    Ok(all)
}
