//! What a run reads for a request.
ghost use Rattle.std.specs.Prelude.{◌≡◌, ◌≤◌};
ghost use Rattle.api_inputs.specs.Reads.{NeverFell};
ghost use Rattle.api_inputs.specs.inner.Answers.{AnswersClientInputs, AnswersFiles, AnswersFrozen, AnswersNew, AnswersOthers, inputs_of};
ghost use Rattle.api_inputs.specs.Inputs.{AnswersInputs, optional};
ghost use Rattle.std.specs.Option.{option_copied};

use crate::frozen::{read_files, read_one};
use crate::trees::{client_tree, module_tree, old_tree, std_tree};
use api_texts::lines::Side;
use api_words::request::Request;
use go_base::list::List;
use go_base::text::Text;
use go_model::files::tree::Tree;
use go_outside::files::Files;
use std::alloc::Global;

/// What a run reads.
#[derive(Debug, Drop)]
pub struct Inputs {
    /// The old tree of the module, where a folder is given.
    pub old_tree: Option<Tree>,
    /// The tree of the module.
    pub tree: Tree,
    /// The tree of the standard library, without files where no folder is given.
    pub std_tree: Tree,
    /// The files in the folder of a client, where one is given.
    pub client: Option<Tree>,
    /// The lines of all files of frozen lines.
    pub required: List<Text>,
    /// The lines of the file of exceptions.
    pub exceptions: List<Text>,
}

/// Why a run isn't given what it reads.
#[derive(Debug, Drop)]
pub enum InputError {
    /// It is refused, with this fault line.
    Refused(Text),
    /// The store failed.
    ReadFault,
    NoMemory,
}

fn read_exceptions<F: Files>(
    alloc: Global,
    files: &mut F,
    path: Option<&Text>,
) -> Result<List<Text>, InputError>
    ensures same { F.told files.new ≡ F.told files.old }
    ensures answer { AnswersFiles (F.told files.old) (optional (option_copied path.entry)) (F.faults files.old) (F.faults files.new) result }
    ensures count { NeverFell (F.faults files.old) (F.faults files.new) }
{
    match path {
        None => Ok(List::new(alloc)),
        Some(path) => read_one(alloc, files, path.bytes()),
    }
}

// The lines of the files of frozen lines, and those of the exceptions.
struct FrozenInputs {
    required: List<Text>,
    exceptions: List<Text>,
}

impl Drop for FrozenInputs {
    fn drop(self) {
        let FrozenInputs {
            required: _,
            exceptions: _,
        } = self;
    }
}

impl FrozenInputs {
    fn with_trees(
        self,
        old_tree: Option<Tree>,
        tree: Tree,
        std_tree: Tree,
        client: Option<Tree>,
    ) -> Inputs
        ensures { result ≡ record { old_tree = old_tree; tree = tree; std_tree = std_tree; client = client; required = self.required; exceptions = self.exceptions } }
    {
        let FrozenInputs {
            required,
            exceptions,
        } = self;
        Inputs {
            old_tree,
            tree,
            std_tree,
            client,
            required,
            exceptions,
        }
    }
}

fn read_frozen<F: Files>(
    alloc: Global,
    files: &mut F,
    request: &Request,
) -> Result<FrozenInputs, InputError>
    ensures same { F.told files.new ≡ F.told files.old }
    ensures answer { AnswersFrozen (F.told files.old) request.now (F.faults files.old) (F.faults files.new) result }
    ensures count { NeverFell (F.faults files.old) (F.faults files.new) }
{
    match read_files(alloc, files, request.api.items()) {
        Err(error) => Err(error),
        Ok(required) => match read_exceptions(alloc, files, request.except.as_ref()) {
            Err(error) => Err(error),
            Ok(exceptions) => Ok(FrozenInputs {
                required,
                exceptions,
            }),
        },
    }
}

// What is read besides the trees.
struct ClientInputs {
    client: Option<Tree>,
    frozen: FrozenInputs,
}

impl Drop for ClientInputs {
    fn drop(self) {
        let ClientInputs {
            client: _,
            frozen: _,
        } = self;
    }
}

impl ClientInputs {
    fn with_trees(self, old_tree: Option<Tree>, tree: Tree, std_tree: Tree) -> Inputs
        ensures { result ≡ record { old_tree = old_tree; tree = tree; std_tree = std_tree; client = self.client; required = self.frozen.required; exceptions = self.frozen.exceptions } }
    {
        let ClientInputs { client, frozen } = self;
        frozen.with_trees(old_tree, tree, std_tree, client)
    }
}

fn read_client_inputs<F: Files>(
    alloc: Global,
    files: &mut F,
    request: &Request,
) -> Result<ClientInputs, InputError>
    ensures same { F.told files.new ≡ F.told files.old }
    ensures answer { AnswersClientInputs (F.told files.old) request.now (F.faults files.old) (F.faults files.new) result }
    ensures count { NeverFell (F.faults files.old) (F.faults files.new) }
{
    match client_tree(alloc, files, request.client.as_ref()) {
        Err(error) => Err(error),
        Ok(client) => match read_frozen(alloc, files, request) {
            Err(error) => Err(error),
            Ok(frozen) => Ok(ClientInputs { client, frozen }),
        },
    }
}

// What is read besides the module's trees.
struct Others {
    std_tree: Tree,
    more: ClientInputs,
}

impl Drop for Others {
    fn drop(self) {
        let Others {
            std_tree: _,
            more: _,
        } = self;
    }
}

impl Others {
    fn with_trees(self, old_tree: Option<Tree>, tree: Tree) -> Inputs
        ensures { result ≡ record { old_tree = old_tree; tree = tree; std_tree = self.std_tree; client = self.more.client; required = self.more.frozen.required; exceptions = self.more.frozen.exceptions } }
    {
        let Others { std_tree, more } = self;
        more.with_trees(old_tree, tree, std_tree)
    }
}

fn read_others<F: Files>(
    alloc: Global,
    files: &mut F,
    request: &Request,
) -> Result<Others, InputError>
    ensures same { F.told files.new ≡ F.told files.old }
    ensures answer { AnswersOthers (F.told files.old) request.now (F.faults files.old) (F.faults files.new) result }
    ensures count { NeverFell (F.faults files.old) (F.faults files.new) }
{
    match std_tree(alloc, files, request.std.as_ref()) {
        Err(error) => Err(error),
        Ok(std_tree) => match read_client_inputs(alloc, files, request) {
            Err(error) => Err(error),
            Ok(more) => Ok(Others { std_tree, more }),
        },
    }
}

// What is read besides the module's old tree.
struct NewInputs {
    tree: Tree,
    others: Others,
}

impl Drop for NewInputs {
    fn drop(self) {
        let NewInputs { tree: _, others: _ } = self;
    }
}

impl NewInputs {
    fn with_old(self, old_tree: Option<Tree>) -> Inputs
        ensures { result ≡ inputs_of old_tree self }
    {
        let NewInputs { tree, others } = self;
        others.with_trees(old_tree, tree)
    }
}

fn read_new<F: Files>(
    alloc: Global,
    files: &mut F,
    request: &Request,
) -> Result<NewInputs, InputError>
    ensures same { F.told files.new ≡ F.told files.old }
    ensures answer { AnswersNew (F.told files.old) request.now (F.faults files.old) (F.faults files.new) result }
    ensures count { NeverFell (F.faults files.old) (F.faults files.new) }
{
    match module_tree(alloc, files, Side::New, request.new.bytes()) {
        Err(error) => Err(error),
        Ok(tree) => match read_others(alloc, files, request) {
            Err(error) => Err(error),
            Ok(others) => Ok(NewInputs { tree, others }),
        },
    }
}

/// What a run reads for a request: the old tree of the module where a folder is given for it, its new one and that of the
/// standard library, the folder of a client where one is given, and then the files of frozen lines in the order given and the file of exceptions. Else the fault line of the
/// first of them that is refused: a tree that isn't loaded, or a file that isn't there, is larger than 16,777,216 bytes, isn't
/// UTF-8 or has a line that is neither skipped nor a feature line. In place of these may come `ReadFault`, only where the store
/// failed, and `NoMemory`, at any time.
pub fn read_inputs<F: Files>(
    alloc: Global,
    files: &mut F,
    request: &Request,
) -> Result<Inputs, InputError>
    ensures same { F.told files.new ≡ F.told files.old }
    ensures answer { AnswersInputs (F.told files.old) request.now (F.faults files.old) (F.faults files.new) result }
    ensures count { NeverFell (F.faults files.old) (F.faults files.new) }
{
    match old_tree(alloc, files, request.old.as_ref()) {
        Err(error) => Err(error),
        Ok(old_tree) => match read_new(alloc, files, request) {
            Err(error) => Err(error),
            Ok(inputs) => Ok(inputs.with_old(old_tree)),
        },
    }
}
