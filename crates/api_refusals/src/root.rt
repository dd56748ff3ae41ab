//! Where the files stand that fault lines name.
ghost use Rattle.std.specs.Prelude.{◌≡◌, ◌++◌, ◌≤◌, IfOk, length, nat_eq, true};
ghost use Rattle.std.specs.List.{starts_with};
ghost use Rattle.api_refusals.specs.Roots.{file_name, is_outside, prefix, root_by, root_of};

use go_base::memory::NoMemory;
use std::alloc::Global;

/// Where a package stands.
#[derive(Clone, Copy, Debug, PartialEq, Eq)]
pub enum Root {
    /// The tree of the module.
    Module,
    /// The tree of the standard library.
    Std,
    /// The folder of a client.
    Client,
}

fn begins_with(path: &[u8], root: &[u8]) -> bool
    ensures value { result ≡ starts_with nat_eq path.now root.now }
    ensures bound { result ≡ true → length root.now ≤ length path.now }
{
    path.starts_with(root)
}

fn is_outside(module: &[u8], path: &[u8]) -> bool
    ensures { result ≡ is_outside «module».now path.now }
{
    if !begins_with(path, module) {
        return true;
    }
    if path.len() == module.len() {
        return false;
    }
    path[module.len()] != b'/'
}

impl Root {
    /// That of a package of a path, which is of the standard library or isn't.
    pub fn by(from_std: bool, path: &[u8]) -> Root
        ensures { result ≡ root_by from_std path.now }
    {
        if path == b"-client".as_slice() {
            return Root::Client;
        }
        if from_std { Root::Std } else { Root::Module }
    }

    /// That of a package of a path beside a module.
    pub fn of(module: &[u8], path: &[u8]) -> Root
        ensures { result ≡ root_of «module».now path.now }
    {
        Root::by(is_outside(module, path), path)
    }

    fn prefix(self) -> &'static [u8]
        ensures { result.now ≡ prefix self }
    {
        match self {
            Root::Module => b"",
            Root::Std => b"std:",
            Root::Client => b"client:",
        }
    }

    /// How fault lines name a file of it.
    pub fn file_name(self, alloc: Global, path: &[u8]) -> Result<Vec<u8>, NoMemory>
        ensures { IfOk result (λ text. text.items ≡ file_name self path.now) }
    {
        let mut text = Vec::from_slice(alloc, self.prefix())?;
        text.extend_from_slice(path)?;
        Ok(text)
    }
}
