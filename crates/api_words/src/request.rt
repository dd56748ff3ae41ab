//! What good words ask for.
use crate::option_name::Mode;
use api_advice::release::Release;
use go_base::list::List;
use go_base::text::Text;
use go_model::files::platform::Platform;

/// A version as the words give it.
#[derive(Debug, Drop)]
pub struct AskedVersion {
    /// As it is written, with its `v` where it has one.
    pub word: Text,
    /// Its numbers, where it has neither a pre-release nor build metadata.
    pub release: Option<Release>,
}

/// Trees that the generator is to make.
#[derive(Clone, Copy, Debug, PartialEq, Eq)]
pub struct MadeTrees {
    /// The number from which all else is drawn.
    pub seed: u64,
    /// How many packages each tree has: 1 to 2,000.
    pub size: u32,
}

/// What good words ask for.
#[derive(Debug, Drop)]
pub struct Request {
    pub mode: Mode,
    /// The folder of the module's old tree, where there is one.
    pub old: Option<Text>,
    /// The folder of the module's tree.
    pub new: Text,
    /// The folder of the standard library's tree, where one is given.
    pub std: Option<Text>,
    /// The folder of a client, where one is given.
    pub client: Option<Text>,
    /// The platforms for which files are chosen, in the order given; one or more, none twice.
    pub platforms: List<Platform>,
    /// How many workers may check packages: 1 to 64.
    pub workers: u32,
    /// The files of frozen lines, in the order given; at most 64.
    pub api: List<Text>,
    /// The file of exceptions, where one is given.
    pub except: Option<Text>,
    /// The version of the last release, where one is given.
    pub version: Option<AskedVersion>,
    /// What the generator is to make, where the trees are its own.
    pub made: Option<MadeTrees>,
}
