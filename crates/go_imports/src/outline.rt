//! The outline of a file, which knows the bytes of which it is one.
ghost use Rattle.std.specs.Prelude.{◌≡◌, true, IfOk};
ghost use Rattle.go_imports.specs.Outlines.{IsOneOutlineOf, IsOutlineOf};

use go_base::memory::NoMemory;
use go_base::shared::Shared;
use go_base::text::Text;
use go_references::go_syntax::declaration::File;
use std::alloc::Global;
use std::marker::Model;

// The tree of an outline, and its bytes.
struct Outlined {
    bytes: Text,
    tree: File,
}

impl Drop for Outlined {
    fn drop(self) {
        let Outlined { bytes: _, tree: _ } = self;
    }
}

/// The outline of a file's bytes, which all that share it own together. A contract sees its tree. It keeps the bytes, so that one of the same bytes
/// is known to be the same without a look at the trees.
pub struct Outline {
    inner: Shared<Outlined>,
}

impl Drop for Outline {
    fn drop(self) {
        let Outline { inner: _ } = self;
    }
}

impl Model for Outline {
    ghost use Rattle.go_imports.specs.Outlines.{IsOneOutlineOf};
    ghost use Rattle.std.specs.Coded.{codes};
    ghost use Rattle.go_references.specs.go_syntax.declared.declaration.File.{File};
    ghost use Rattle.go_references.specs.go_syntax.contracts.declaration.File as f;

    ghost Value = { File };

    ghost coded = { Prim.hlevel (codes, f.the_row.coded) };

    ghost view = { λ o. o.inner.tree };

    ghost invariant = { λ o. IsOneOutlineOf o.inner.bytes o.inner.tree };
}

fn are_same(bytes: &[u8], others: &[u8]) -> bool
    ensures { result ≡ true → bytes.now ≡ others.now }
{
    bytes == others
}

impl Outline {
    /// The outline of these bytes, of which it is one more owner.
    pub fn new(alloc: Global, bytes: &Text, tree: File) -> Result<Outline, NoMemory>
        requires { IsOneOutlineOf bytes.now tree }
        ensures { IfOk result (λ o. o ≡ tree) }
    {
        let bytes = bytes.copy()?;
        Ok(Outline {
            inner: Shared::new(alloc, Outlined { bytes, tree })?,
        })
    }

    /// The tree.
    pub fn value(&self) -> &File
        ensures { result.now ≡ self.now }
    {
        &self.inner.value().tree
    }

    /// One more owner of the outline, which takes no memory. `NoMemory` means that no more owners can be counted.
    pub fn share(&self) -> Result<Outline, NoMemory>
        ensures { IfOk result (λ o. o ≡ self.now) }
    {
        Ok(Outline {
            inner: self.inner.share()?,
        })
    }

    /// Whether it is known as that of these bytes.
    pub fn is_of(&self, bytes: &[u8]) -> bool
        ensures { result ≡ true → IsOutlineOf bytes.now self.now }
    {
        are_same(self.inner.value().bytes.bytes(), bytes)
    }

    /// Whether it is known as the same as another one, since both are of the same bytes.
    pub fn is_same(&self, other: &Outline) -> bool
        ensures { result ≡ true → self.now ≡ other.now }
    {
        are_same(
            self.inner.value().bytes.bytes(),
            other.inner.value().bytes.bytes(),
        )
    }
}
