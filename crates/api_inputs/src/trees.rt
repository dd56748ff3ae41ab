//! Loading the trees of a run, and a client.
ghost use Rattle.std.specs.Prelude.{◌≡◌, ◌≤◌};
ghost use Rattle.api_inputs.specs.Reads.{MayHaveStd, MayLoad, MayLoadClient, MayLoadStd, NeverFell};
ghost use Rattle.api_inputs.specs.inner.Answers.{AnswersClient, AnswersOld, AnswersTree, IsToldAs};
ghost use Rattle.api_texts.specs.declared.lines.Side.TheVariants as side;
ghost use Rattle.std.specs.Option.{option_copied};

use crate::inputs::InputError;
use api_texts::lines::{Side, load_line};
use go_base::list::List;
use go_base::memory::NoMemory;
use go_base::text::Text;
use go_load::error::LoadError;
use go_load::load::{load_client, load_module, load_std};
use go_model::files::tree::Tree;
use go_outside::files::Files;
use std::alloc::Global;

fn told_as(alloc: Global, side: Side, error: &LoadError) -> InputError
    ensures { IsToldAs side error.now result }
{
    match error {
        LoadError::ReadFault => InputError::ReadFault,
        LoadError::NoMemory => InputError::NoMemory,
        _ => match load_line(alloc, side, error) {
            Ok(line) => InputError::Refused(line),
            Err(NoMemory) => InputError::NoMemory,
        },
    }
}

/// The tree of the module on this side, or the fault line of its refusal.
pub(crate) fn module_tree<F: Files>(
    alloc: Global,
    files: &mut F,
    side: Side,
    root: &[u8],
) -> Result<Tree, InputError>
    ensures same { F.told files.new ≡ F.told files.old }
    ensures answer { AnswersTree (MayLoad (F.told files.old) root.now) side (F.faults files.old) (F.faults files.new) result }
    ensures count { NeverFell (F.faults files.old) (F.faults files.new) }
{
    match load_module(alloc, files, root) {
        Ok(tree) => Ok(tree),
        Err(error) => Err(told_as(alloc, side, &error)),
    }
}

/// The old tree of the module where a folder is given, or the fault line of its refusal.
pub(crate) fn old_tree<F: Files>(
    alloc: Global,
    files: &mut F,
    root: Option<&Text>,
) -> Result<Option<Tree>, InputError>
    ensures same { F.told files.new ≡ F.told files.old }
    ensures answer { AnswersOld (F.told files.old) (option_copied root.entry) (F.faults files.old) (F.faults files.new) result }
    ensures count { NeverFell (F.faults files.old) (F.faults files.new) }
{
    match root {
        None => Ok(None),
        Some(root) => match module_tree(alloc, files, Side::Old, root.bytes()) {
            Err(error) => Err(error),
            Ok(tree) => Ok(Some(tree)),
        },
    }
}

fn loaded_std<F: Files>(alloc: Global, files: &mut F, root: &[u8]) -> Result<Tree, InputError>
    ensures same { F.told files.new ≡ F.told files.old }
    ensures answer { AnswersTree (MayLoadStd (F.told files.old) root.now) side.Std (F.faults files.old) (F.faults files.new) result }
    ensures count { NeverFell (F.faults files.old) (F.faults files.new) }
{
    match load_std(alloc, files, root) {
        Ok(tree) => Ok(tree),
        Err(error) => Err(told_as(alloc, Side::Std, &error)),
    }
}

/// The tree of the standard library, without files where no folder is given, or the fault line of its refusal.
pub(crate) fn std_tree<F: Files>(
    alloc: Global,
    files: &mut F,
    root: Option<&Text>,
) -> Result<Tree, InputError>
    ensures same { F.told files.new ≡ F.told files.old }
    ensures answer { AnswersTree (MayHaveStd (F.told files.old) (option_copied root.entry)) side.Std (F.faults files.old) (F.faults files.new) result }
    ensures count { NeverFell (F.faults files.old) (F.faults files.new) }
{
    match root {
        Some(root) => loaded_std(alloc, files, root.bytes()),
        None => Ok(Tree {
            module: Text::empty(),
            files: List::new(alloc),
        }),
    }
}

fn loaded_client<F: Files>(alloc: Global, files: &mut F, root: &[u8]) -> Result<Tree, InputError>
    ensures same { F.told files.new ≡ F.told files.old }
    ensures answer { AnswersTree (MayLoadClient (F.told files.old) root.now) side.Client (F.faults files.old) (F.faults files.new) result }
    ensures count { NeverFell (F.faults files.old) (F.faults files.new) }
{
    match load_client(alloc, files, root) {
        Ok(tree) => Ok(tree),
        Err(error) => Err(told_as(alloc, Side::Client, &error)),
    }
}

/// The folder of a client where one is given, or the fault line of its refusal.
pub(crate) fn client_tree<F: Files>(
    alloc: Global,
    files: &mut F,
    root: Option<&Text>,
) -> Result<Option<Tree>, InputError>
    ensures same { F.told files.new ≡ F.told files.old }
    ensures answer { AnswersClient (F.told files.old) (option_copied root.entry) (F.faults files.old) (F.faults files.new) result }
    ensures count { NeverFell (F.faults files.old) (F.faults files.new) }
{
    match root {
        None => Ok(None),
        Some(root) => match loaded_client(alloc, files, root.bytes()) {
            Err(refusal) => Err(refusal),
            Ok(tree) => Ok(Some(tree)),
        },
    }
}
