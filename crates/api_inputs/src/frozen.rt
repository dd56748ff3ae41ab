//! Reading files of frozen lines.
ghost use Rattle.std.specs.Prelude.{◌≡◌, ◌≤◌, ◌++◌, ◌∷◌, [], OnOk, length};
ghost use Rattle.api_inputs.specs.Reads.{NeverFell};
ghost use Rattle.api_inputs.specs.inner.Answers.{AnswersFile, AnswersFiles};
ghost use Rattle.api_inputs.specs.inner.FrozenSteps.{AnswersLines, IsFrozenRefusal, IsInputError, file_error};

use crate::inputs::InputError;
use api_frozen::error::FrozenError;
use api_frozen::file::read_frozen;
use api_texts::lines::{FrozenFault, frozen_line};
use go_base::list::List;
use go_base::memory::NoMemory;
use go_base::text::Text;
use go_outside::files::{Files, FilesError};
use std::alloc::Global;

/// How many bytes a file of frozen lines may have.
const MOST_FROZEN: u64 = 16_777_216;

/// Why a file of frozen lines isn't read.
#[derive(Clone, Copy, Debug, PartialEq, Eq)]
pub(crate) enum FileError {
    Fault(FrozenFault),
    /// The store failed.
    ReadFault,
    NoMemory,
}

// The lines of the bytes of a file.
fn lines_of(alloc: Global, bytes: &[u8]) -> Result<List<Text>, FileError>
    requires { length bytes.now ≤ 16777216 }
    ensures { AnswersLines bytes.now result }
{
    match read_frozen(alloc, bytes) {
        Ok(lines) => Ok(lines),
        Err(FrozenError::NotUtf8(offset)) => Err(FileError::Fault(FrozenFault::NotUtf8(offset))),
        Err(FrozenError::NotALine(number)) => Err(FileError::Fault(FrozenFault::NotALine(number))),
        Err(FrozenError::NoMemory) => Err(FileError::NoMemory),
    }
}

fn file_error(error: FilesError) -> FileError
    ensures { result ≡ file_error error }
{
    match error {
        FilesError::Missing => FileError::Fault(FrozenFault::Missing),
        FilesError::TooLarge => FileError::Fault(FrozenFault::TooLarge),
        FilesError::Failed => FileError::ReadFault,
        FilesError::NoMemory => FileError::NoMemory,
    }
}

fn read_file<F: Files>(alloc: Global, files: &mut F, path: &[u8]) -> Result<List<Text>, FileError>
    ensures same { F.told files.new ≡ F.told files.old }
    ensures answer { AnswersFile (F.told files.old) path.now (F.faults files.old) (F.faults files.new) result }
    ensures count { NeverFell (F.faults files.old) (F.faults files.new) }
{
    match files.read(alloc, path, MOST_FROZEN) {
        Ok(bytes) => lines_of(alloc, bytes.bytes()),
        Err(error) => Err(file_error(error)),
    }
}

fn refused(alloc: Global, path: &[u8], fault: FrozenFault) -> InputError
    ensures { IsFrozenRefusal path.now fault result }
{
    match frozen_line(alloc, path, fault) {
        Ok(line) => InputError::Refused(line),
        Err(NoMemory) => InputError::NoMemory,
    }
}

fn input_error(alloc: Global, path: &[u8], error: FileError) -> InputError
    ensures { IsInputError path.now error result }
{
    match error {
        FileError::Fault(fault) => refused(alloc, path, fault),
        FileError::ReadFault => InputError::ReadFault,
        FileError::NoMemory => InputError::NoMemory,
    }
}

fn append(all: &mut Vec<Text>, lines: List<Text>) -> Result<(), NoMemory>
    ensures { OnOk result (all.new.items ≡ all.old.items ++ lines) }
{
    let mut lines = lines.into_vec();
    all.append(&mut lines)?;
    Ok(())
}

/// The lines of these files, one file after another, or the fault line of the first that gives none.
pub(crate) fn read_files<F: Files>(
    alloc: Global,
    files: &mut F,
    paths: &[Text],
) -> Result<List<Text>, InputError>
    ensures same { F.told files.new ≡ F.told files.old }
    ensures answer { AnswersFiles (F.told files.old) paths.now (F.faults files.old) (F.faults files.new) result }
    ensures count { NeverFell (F.faults files.old) (F.faults files.new) }
{
    let mut all = Vec::new(alloc);
    for path in paths {
        match read_file(alloc, files, path.bytes()) {
            Err(error) => return Err(input_error(alloc, path.bytes(), error)),
            Ok(lines) => match append(&mut all, lines) {
                Ok(()) => {}
                Err(NoMemory) => return Err(InputError::NoMemory),
            },
        }
    }
    Ok(List::from_vec(all))
}

/// The lines of a file, or the fault line for which it gives none.
pub(crate) fn read_one<F: Files>(
    alloc: Global,
    files: &mut F,
    path: &[u8],
) -> Result<List<Text>, InputError>
    ensures same { F.told files.new ≡ F.told files.old }
    ensures answer { AnswersFiles (F.told files.old) (path.now ∷ []) (F.faults files.old) (F.faults files.new) result }
    ensures count { NeverFell (F.faults files.old) (F.faults files.new) }
{
    match read_file(alloc, files, path) {
        Err(error) => Err(input_error(alloc, path, error)),
        Ok(lines) => Ok(lines),
    }
}
