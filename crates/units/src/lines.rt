//! Units and refusals, as they are printed.
use go_base::text::Text;
use go_units::reader::FileFault;
use go_units::unit::{Unit, UnitFile, UsedImport};
use go_units::unit_error::{FileAt, UnitError};
use go_units::unit_list::Units;
use std::alloc::{AllocError, Global};

fn add_words(text: &mut Vec<u8>, words: &[&[u8]]) -> Result<(), AllocError> {
    for word in words {
        text.extend_from_slice(word)?;
    }
    Ok(())
}

fn add_number(alloc: Global, text: &mut Vec<u8>, number: u32) -> Result<(), AllocError> {
    text.extend_from_slice(format!(in alloc; "{number}")?.as_bytes())
}

fn add_import(alloc: Global, text: &mut Vec<u8>, import: &UsedImport) -> Result<(), AllocError> {
    add_words(
        text,
        &[b"    ", import.name.bytes(), b" ", import.path.bytes()],
    )?;
    if import.found {
        text.extend_from_slice(b" found ")?;
    } else {
        text.extend_from_slice(b" not found ")?;
    }
    add_number(alloc, text, import.place)?;
    text.push(b'\n')?;
    Ok(())
}

fn add_file(alloc: Global, text: &mut Vec<u8>, file: &UnitFile) -> Result<(), AllocError> {
    add_words(text, &[b"  ", file.path.bytes(), b"\n"])?;
    for import in file.imports.items() {
        add_import(alloc, text, import)?;
    }
    Ok(())
}

fn add_needs(text: &mut Vec<u8>, needs: &[Text]) -> Result<(), AllocError> {
    for path in needs {
        add_words(text, &[b" needs ", path.bytes()])?;
    }
    Ok(())
}

fn add_unit(alloc: Global, text: &mut Vec<u8>, unit: &Unit) -> Result<(), AllocError> {
    let side = if unit.from_std {
        b" std".as_slice()
    } else {
        b" module".as_slice()
    };
    add_words(text, &[unit.path.bytes(), b" ", unit.name.bytes(), side])?;
    add_needs(text, unit.needs.items())?;
    text.push(b'\n')?;
    for file in unit.files.items() {
        add_file(alloc, text, file)?;
    }
    Ok(())
}

/// Appends a line for each unit, file and used import.
pub fn add_units(alloc: Global, text: &mut Vec<u8>, units: &Units) -> Result<(), AllocError> {
    for unit in units.packages.items() {
        add_unit(alloc, text, unit)?;
    }
    Ok(())
}

fn add_place(text: &mut Vec<u8>, at: &FileAt) -> Result<(), AllocError> {
    add_words(text, &[at.path.bytes(), b" ", at.file.bytes(), b": "])
}

fn add_fault(alloc: Global, text: &mut Vec<u8>, fault: FileFault) -> Result<(), AllocError> {
    match fault {
        FileFault::BadExpression => text.extend_from_slice(b"bad build expression"),
        FileFault::Twice => text.extend_from_slice(b"two build lines"),
        FileFault::PlusBuild => text.extend_from_slice(b"a plus line alone"),
        FileFault::Syntax => text.extend_from_slice(b"not in the grammar"),
        FileFault::BadToken(offset) => {
            text.extend_from_slice(b"no token at ")?;
            add_number(alloc, text, offset)
        }
    }
}

/// Appends a line with the refusal.
pub fn add_error(alloc: Global, text: &mut Vec<u8>, error: &UnitError) -> Result<(), AllocError> {
    match error {
        UnitError::NoMemory => text.extend_from_slice(b"out of memory")?,
        UnitError::MixedNames(path) => add_words(
            text,
            &[path.bytes(), b": several package names"],
        )?,
        UnitError::Cycle(path) => add_words(text, &[path.bytes(), b": import cycle"])?,
        UnitError::File(at, fault) => {
            add_place(text, at)?;
            add_fault(alloc, text, *fault)?;
        }
        UnitError::InternalUse(at, place) => {
            add_place(text, at)?;
            text.extend_from_slice(b"internal import at ")?;
            add_number(alloc, text, *place)?;
        }
    }
    text.push(b'\n')?;
    Ok(())
}
