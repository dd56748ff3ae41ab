//! The declarations of a package, each with its entry once it is settled.
ghost use Rattle.std.specs.Prelude.{◌≡◌};
ghost use Rattle.go_package_entries.specs.PackageStates.{IsKept, entries_in, had_in, scopes_in, setting_in, source_in};

use crate::giving::give;
use crate::grown::Grown;
use crate::tables::Tables;
use crate::takings::take;
use go_base::memory::NoMemory;
use go_entries::had::HadEntries;
use go_model::types::package::Defined;
use go_rules::env::Env;
use go_settling::giver::Giver;
use go_type_terms::error::ExprError;
use go_units::unit::Unit;
use std::alloc::Global;

/// A package, the scopes that its declarations are typed in, the predeclared `error`, and the entries that are had.
pub struct PackageEntries<'w, 'a> {
    pub(crate) alloc: Global,
    pub(crate) env: Env<'w>,
    pub(crate) error: Defined,
    pub(crate) unit: &'a Unit,
    pub(crate) tables: Tables<'a>,
    pub(crate) had: HadEntries,
}

impl Drop for PackageEntries<'_, '_> {
    fn drop(self) {
        let PackageEntries {
            alloc: _,
            env: _,
            error: _,
            unit: _,
            tables: _,
            had: _,
        } = self;
    }
}

impl<'w> PackageEntries<'w, '_> {
    /// The scopes, and the entries that are had.
    pub fn into_parts(self) -> (Env<'w>, HadEntries)
        ensures scopes { result.0 ≡ scopes_in self.entry }
        ensures had { result.1 ≡ had_in self.entry }
    {
        let PackageEntries {
            alloc: _,
            env,
            error: _,
            unit: _,
            tables: _,
            had,
        } = self;
        (env, had)
    }
}

impl Giver for PackageEntries<'_, '_> {
    ghost setting = { setting_in };

    ghost source = { source_in };

    ghost entries = { entries_in };

    ghost holds = { IsKept };

    fn count(&self) -> usize {
        self.tables.declarations.len()
    }

    fn settle(&mut self, number: usize) -> Result<bool, NoMemory> {
        if self.had.get(number).is_some() {
            return Ok(false);
        }
        let declaration = self.tables.declarations[number];
        match give(
            &mut self.env,
            self.alloc,
            &self.error,
            &self.tables,
            &declaration,
        ) {
            Err(ExprError::Untyped) => Ok(false),
            Err(ExprError::NoMemory) => Err(NoMemory),
            Ok(entry) => {
                let grown = Grown {
                    had: &self.had,
                    number,
                    entry: &entry,
                };
                if let Err(error) = take(
                    &mut self.env,
                    self.alloc,
                    &self.tables,
                    grown,
                    &declaration,
                ) {
                    return Err(error);
                }
                self.had.put(number, entry);
                Ok(true)
            }
        }
    }
}
