//! What the files of a client give.
ghost use Rattle.std.specs.Prelude.{◌≡◌, ◌≤◌, ◌++◌, length, IfOk, IfErr, OnOk};
ghost use Rattle.go_base.specs.Lists.{Has};
ghost use Rattle.go_imports.specs.Gives.{optional};
ghost use Rattle.go_client_files.specs.ClientFiles.{IsParsed};
ghost use Rattle.go_client_files.specs.inner.Causes.{Causes, HasBadText};
ghost use Rattle.go_client_files.specs.inner.Heads.{GivesHeaded, IsSomeParsed, IsRefusedHeaded, IsRefusalOf, IsHeadedReading};
ghost use Rattle.go_reading.specs.declared.heads.HeadedFile.{HeadedFile};

use crate::parsed::{FileError, ParsedFile, parsed_file};
use go_base::list::List;
use go_base::memory::NoMemory;
use go_base::text::Text;
use go_load::names::under;
use go_model::files::tree::TreeFile;
use go_reading::heads::{Head, HeadedFile};
use go_units::reader::FileFault;
use std::alloc::Global;

/// What the files of a client give.
#[derive(Drop)]
pub(crate) enum ClientReading {
    /// The files that the platform chooses, by their names.
    Files(List<ParsedFile>),
    /// The path of the first file that is refused, and why.
    Refused(Text, FileFault),
}

fn chosen_file(alloc: Global, file: &TreeFile) -> Result<Option<ParsedFile>, FileError>
    requires { length file.now.bytes ≤ 4194304 }
    ensures ok { IfOk result (IsSomeParsed file.now) }
    ensures cause { IfErr result (Causes (HasBadText file.now.bytes)) }
{
    match parsed_file(alloc, file) {
        Err(error) => Err(error),
        Ok(parsed) => Ok(Some(parsed)),
    }
}

fn read_file(alloc: Global, file: &HeadedFile<'_>) -> Result<Option<ParsedFile>, FileError>
    requires { length file.now.file.now.bytes ≤ 4194304 }
    ensures ok { IfOk result (GivesHeaded file.now) }
    ensures cause { IfErr result (Causes (IsRefusedHeaded file.now)) }
{
    match &file.head {
        Head::LeftOut => Ok(None),
        Head::Refused(fault) => Err(FileError::Faulty(*fault)),
        Head::Chosen(_) => chosen_file(alloc, file.file),
    }
}

fn add(files: &mut List<ParsedFile>, file: Option<ParsedFile>) -> Result<(), NoMemory>
    ensures { OnOk result (files.new ≡ files.old ++ optional file) }
{
    match file {
        None => Ok(()),
        Some(file) => files.push(file),
    }
}

fn refused(
    alloc: Global,
    file: &HeadedFile<'_>,
    fault: FileFault,
) -> Result<ClientReading, NoMemory>
    requires { IsRefusedHeaded file.now fault }
    ensures { IfOk result (IsRefusalOf file.now) }
{
    let path = under(alloc, file.file.folder.bytes(), file.file.name.bytes())?;
    Ok(ClientReading::Refused(path, fault))
}

fn refusal(
    alloc: Global,
    file: &HeadedFile<'_>,
    error: FileError,
) -> Result<ClientReading, NoMemory>
    requires { Causes (IsRefusedHeaded file.now) error }
    ensures { IfOk result (IsRefusalOf file.now) }
{
    match error {
        FileError::NoMemory => Err(NoMemory),
        FileError::Faulty(fault) => refused(alloc, file, fault),
    }
}

/// What the files of a client give: the chosen ones, parsed, or the first one that is refused.
pub(crate) fn read_files(alloc: Global, files: &[HeadedFile<'_>]) -> Result<ClientReading, NoMemory>
    requires { (h : HeadedFile) → Has files.now h → length h.file.now.bytes ≤ 4194304 }
    ensures { IfOk result (IsHeadedReading files.now) }
{
    let mut parsed = List::new(alloc);
    for file in files {
        match read_file(alloc, file) {
            Err(error) => return refusal(alloc, file, error),
            Ok(given) => add(&mut parsed, given)?,
        }
    }
    Ok(ClientReading::Files(parsed))
}
