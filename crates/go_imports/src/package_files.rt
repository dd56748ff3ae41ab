//! The files of a package: their one name, and which of them import `"C"`.
ghost use Rattle.std.specs.Prelude.{◌≡◌, true, false};
ghost use Rattle.go_base.specs.Lists.{Has};
ghost use Rattle.go_imports.specs.PackageFiles.{AreOfOnePackage, HasC, IsC};
ghost use Rattle.go_imports.specs.Answers.{Decides};
ghost use Rattle.go_imports.specs.inner.Files.{IsNamedAs};

use crate::outline::Outline;
use go_base::text::Text;
use go_references::go_syntax::declaration::{File, ImportSpec};

/// A file of a package that the platform chooses.
#[derive(Drop)]
pub struct SourceFile {
    /// Its path below the root of its tree.
    pub path: Text,
    pub outline: Outline,
}

fn is_named_as(file: &SourceFile, name: &[u8]) -> bool
    ensures { Decides result (IsNamedAs name.now file.now) }
{
    file.outline.value().package.text.bytes() == name
}

fn are_named_as(files: &[SourceFile], name: &[u8]) -> bool
    ensures yes { result ≡ true → (s : SourceFile) → Has files.now s → IsNamedAs name.now s }
    ensures no { result ≡ false → (s : SourceFile) × Has files.now s × (IsNamedAs name.now s → ⊥) }
{
    for file in files {
        if !is_named_as(file, name) {
            return false;
        }
    }
    true
}

/// Whether the package clauses of these files have one name.
pub fn are_of_one_package(files: &[SourceFile]) -> bool
    ensures { Decides result (AreOfOnePackage files.now) }
{
    if files.is_empty() {
        return true;
    }
    are_named_as(files, files[0].outline.value().package.text.bytes())
}

fn is_c(import: &ImportSpec) -> bool
    ensures { Decides result (IsC import.now) }
{
    import.path.bytes() == b"C".as_slice()
}

fn has_c(imports: &[ImportSpec]) -> bool
    ensures { Decides result (HasC imports.now) }
{
    for import in imports {
        if is_c(import) {
            return true;
        }
    }
    false
}

/// Whether a file imports `"C"`.
pub fn imports_c(outline: &File) -> bool
    ensures { Decides result (HasC outline.now.imports) }
{
    has_c(outline.imports.items())
}
