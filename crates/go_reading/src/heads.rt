//! What the headers of files say of them on a platform.
ghost use Rattle.std.specs.Prelude.{◌≡◌, Bool, true, None, IfOk, option_map};
ghost use Rattle.std.specs.List.{list_any};
ghost use Rattle.go_base.specs.Lists.{Has};
ghost use Rattle.go_model.specs.files.BuildValues.{is_chosen};
ghost use Rattle.go_model.specs.files.Headers.{IsHeader};
ghost use Rattle.go_reading.specs.inner.Groups.{lent};
ghost use Rattle.go_reading.specs.inner.Heads.{IsHead, AreHeads, name_said, first_name, is_chosen_head};
ghost use Rattle.go_reading.specs.declared.heads.HeadedFile.{HeadedFile};
ghost use Rattle.go_tags.specs.HeaderCauses.{HasCause};

use go_base::list::List;
use go_base::memory::NoMemory;
use go_base::text::Text;
use go_model::files::build::Header;
use go_model::files::platform::Platform;
use go_model::files::tree::TreeFile;
use go_tags::choice::chosen;
use go_tags::error::TagError;
use go_tags::header::header;
use go_units::reader::FileFault;
use std::alloc::Global;

/// What the header of a file says of it on a platform.
#[derive(Debug, Drop)]
pub enum Head {
    /// The platform leaves the file out.
    LeftOut,
    /// The platform chooses it; the name in its package clause, where its header has one.
    Chosen(Option<Text>),
    /// The platform allows its name, and its header is refused.
    Refused(FileFault),
}

/// A file of a tree, with what its header says.
#[derive(Drop)]
pub struct HeadedFile<'a> {
    pub file: &'a TreeFile,
    pub head: Head,
}

fn of_header(platform: Platform, file: &TreeFile, header: Header) -> Head
    requires { IsHeader file.now.bytes header }
    ensures { IsHead platform file.now result }
{
    let Header { constraint, clause } = header;
    if chosen(platform, file.name.bytes(), constraint.as_ref()) {
        return Head::Chosen(clause);
    }
    Head::LeftOut
}

fn of_error(platform: Platform, file: &TreeFile, error: TagError) -> Result<Head, NoMemory>
    requires allowed { is_chosen platform file.now.name None ≡ true }
    requires cause { HasCause file.now.bytes error }
    ensures { IfOk result (IsHead platform file.now) }
{
    match error {
        TagError::BadExpression => Ok(Head::Refused(FileFault::BadExpression)),
        TagError::Twice => Ok(Head::Refused(FileFault::Twice)),
        TagError::PlusBuild => Ok(Head::Refused(FileFault::PlusBuild)),
        TagError::NoMemory => Err(NoMemory),
    }
}

/// What the header of a file says of it. It is read only where the platform allows the file's name.
pub fn head_of(alloc: Global, platform: Platform, file: &TreeFile) -> Result<Head, NoMemory>
    ensures { IfOk result (IsHead platform file.now) }
{
    if !chosen(platform, file.name.bytes(), None) {
        return Ok(Head::LeftOut);
    }
    match header(alloc, file.bytes.bytes()) {
        Err(error) => of_error(platform, file, error),
        Ok(header) => Ok(of_header(platform, file, header)),
    }
}

/// The files, each with what its header says.
pub fn headed_files<'a>(
    alloc: Global,
    platform: Platform,
    files: &[&'a TreeFile],
) -> Result<List<HeadedFile<'a>>, NoMemory>
    ensures { IfOk result (AreHeads platform (lent files.now)) }
{
    let mut headed = List::new(alloc);
    for file in files {
        let head = head_of(alloc, platform, file)?;
        headed.push(HeadedFile { file: *file, head })?;
    }
    Ok(headed)
}

fn name_said(head: &Head) -> Option<&Text>
    ensures { option_map (λ name. name.now) result ≡ name_said head.now }
{
    match head {
        Head::Chosen(Some(name)) => Some(name),
        _ => None,
    }
}

fn first_name<'a>(files: &'a [HeadedFile<'_>]) -> Option<&'a Text>
    ensures { option_map (λ name. name.now) result ≡ first_name files.entry.now }
{
    for file in files {
        if let Some(name) = name_said(&file.head) {
            return Some(name);
        }
    }
    None
}

/// The name in the package clause of the first chosen file that says one.
pub(crate) fn package_name(files: &[HeadedFile<'_>]) -> Result<Option<Text>, NoMemory>
    ensures { IfOk result (λ name. name ≡ first_name files.now) }
{
    match first_name(files) {
        None => Ok(None),
        Some(name) => Ok(Some(name.copy()?)),
    }
}

fn is_chosen(head: &Head) -> bool
    ensures { result ≡ is_chosen_head head.now }
{
    matches!(head, Head::Chosen(_))
}

/// Whether the platform chooses one of the files.
pub(crate) fn has_chosen(files: &[HeadedFile<'_>]) -> bool
    ensures { result ≡ list_any (λ (h : HeadedFile). is_chosen_head h.head) files.now }
{
    files.iter().any(|file| is_chosen(&file.head))
}
