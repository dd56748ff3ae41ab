//! What was counted of a tree so far.
ghost use Rattle.std.specs.Prelude.{◌≡◌, ◌≤◌, ◌<◌, ◌+◌, ◌-◌, ◌^◌, min, true, false};
ghost use Rattle.go_model.specs.files.Trees.{most};
ghost use Rattle.go_load.specs.Walk.{count_with, counts_with, no_counts};

use go_model::files::tree::{
    LimitName, MOST_BYTES, MOST_FILE_BYTES, MOST_FILES, MOST_FOLDERS, MOST_PACKAGES,
};

/// What was counted of a tree so far.
#[derive(Clone, Copy, Debug)]
pub(crate) struct Counts {
    pub(crate) folders: u64,
    pub(crate) packages: u64,
    pub(crate) files: u64,
    pub(crate) bytes: u64,
}

fn most(limit: LimitName) -> u64
    ensures { result ≡ most limit }
{
    match limit {
        LimitName::FileBytes => MOST_FILE_BYTES,
        LimitName::Files => MOST_FILES,
        LimitName::Bytes => MOST_BYTES,
        LimitName::Packages => MOST_PACKAGES,
        LimitName::Folders => MOST_FOLDERS,
    }
}

impl Counts {
    pub(crate) fn new() -> Counts
        ensures { result ≡ no_counts }
    {
        Counts {
            folders: 0,
            packages: 0,
            files: 0,
            bytes: 0,
        }
    }

    /// The count under a limit with so many more.
    fn with(&self, limit: LimitName, amount: u64) -> u64
        ensures { result ≡ min (count_with self.now limit amount) (2 ^ 64 - 1) }
    {
        match limit {
            LimitName::FileBytes => amount,
            LimitName::Files => self.files.saturating_add(amount),
            LimitName::Bytes => self.bytes.saturating_add(amount),
            LimitName::Packages => self.packages.saturating_add(amount),
            LimitName::Folders => self.folders.saturating_add(amount),
        }
    }

    fn set(&mut self, limit: LimitName, total: u64, amount: u64)
        requires { total ≡ count_with self.old limit amount }
        ensures { self.new ≡ counts_with self.old limit amount }
    {
        match limit {
            LimitName::FileBytes => {}
            LimitName::Files => self.files = total,
            LimitName::Bytes => self.bytes = total,
            LimitName::Packages => self.packages = total,
            LimitName::Folders => self.folders = total,
        }
    }

    /// Counts so many more under a limit, where that keeps it.
    pub(crate) fn add(&mut self, limit: LimitName, amount: u64) -> bool
        ensures yes { result ≡ true → (count_with self.old limit amount ≤ most limit) × (self.new ≡ counts_with self.old limit amount) }
        ensures no { result ≡ false → (most limit < count_with self.old limit amount) × (self.new ≡ self.old) }
    {
        let total = self.with(limit, amount);
        if total > most(limit) {
            return false;
        }
        self.set(limit, total, amount);
        true
    }
}
