//! Modes and their options.
ghost use Rattle.std.specs.Prelude.{◌≡◌, ◌⊎◌, Decides, MatchOption};
ghost use Rattle.go_base.specs.Lists.{Has};
ghost use Rattle.api_words.specs.Options.{needs, permits, spelling, word_of};
ghost use Rattle.api_words.specs.declared.option_name.Mode.{Mode};
ghost use Rattle.api_words.specs.declared.option_name.OptionName.{OptionName};

/// What a run is to report.
#[derive(Clone, Copy, Debug, PartialEq, Eq)]
pub enum Mode {
    /// The features of a module.
    Features,
    /// What a module lost and gained against frozen lines.
    Frozen,
    /// Whether code that compiled against the old tree can stop compiling against the new one.
    Judge,
    /// The least version that the new tree may be given.
    Advise,
    /// What is lost against frozen lines, what is broken, and the least version.
    Gate,
    /// What was left out of a module.
    Skipped,
    /// Whether a client of a module is typed.
    Vet,
    /// What the judge finds on trees that the generator makes.
    Make,
}

/// An option of some mode.
#[derive(Clone, Copy, Debug, PartialEq, Eq)]
pub enum OptionName {
    Old,
    New,
    Std,
    Client,
    Platforms,
    Workers,
    Api,
    Except,
    Version,
    Seed,
    Size,
}

impl Mode {
    /// The options that have to be given in this mode.
    pub(crate) fn needs(self) -> &'static [OptionName]
        ensures { result.now ≡ needs self }
    {
        match self {
            Mode::Features | Mode::Skipped => &[OptionName::New],
            Mode::Frozen => &[OptionName::New, OptionName::Api],
            Mode::Judge => &[OptionName::Old, OptionName::New],
            Mode::Advise => &[OptionName::Old, OptionName::New, OptionName::Version],
            Mode::Gate => &[
                OptionName::Old,
                OptionName::New,
                OptionName::Api,
                OptionName::Version,
            ],
            Mode::Vet => &[OptionName::New, OptionName::Client],
            Mode::Make => &[OptionName::Seed, OptionName::Size],
        }
    }

    /// The options that may be given besides.
    pub(crate) fn permits(self) -> &'static [OptionName]
        ensures { result.now ≡ permits self }
    {
        match self {
            Mode::Features | Mode::Judge | Mode::Advise | Mode::Skipped | Mode::Vet => {
                &[OptionName::Std, OptionName::Platforms, OptionName::Workers]
            }
            Mode::Frozen | Mode::Gate => &[
                OptionName::Except,
                OptionName::Std,
                OptionName::Platforms,
                OptionName::Workers,
            ],
            Mode::Make => &[OptionName::Workers],
        }
    }
}

/// The mode that a word names, or `None`.
pub(crate) fn mode_of(word: &[u8]) -> Option<Mode>
    ensures { MatchOption result ((mode : Mode) → word.now ≡ word_of mode → ⊥) (λ mode. word.now ≡ word_of mode) }
{
    if word == b"features".as_slice() {
        return Some(Mode::Features);
    }
    if word == b"frozen".as_slice() {
        return Some(Mode::Frozen);
    }
    if word == b"judge".as_slice() {
        return Some(Mode::Judge);
    }
    if word == b"advise".as_slice() {
        return Some(Mode::Advise);
    }
    if word == b"gate".as_slice() {
        return Some(Mode::Gate);
    }
    if word == b"skipped".as_slice() {
        return Some(Mode::Skipped);
    }
    if word == b"vet".as_slice() {
        return Some(Mode::Vet);
    }
    if word == b"make".as_slice() {
        return Some(Mode::Make);
    }
    None
}

/// The option that a word spells, or `None`.
pub(crate) fn option_of(word: &[u8]) -> Option<OptionName>
    ensures { MatchOption result ((name : OptionName) → word.now ≡ spelling name → ⊥) (λ name. word.now ≡ spelling name) }
{
    if word == b"--old".as_slice() {
        return Some(OptionName::Old);
    }
    if word == b"--new".as_slice() {
        return Some(OptionName::New);
    }
    if word == b"--std".as_slice() {
        return Some(OptionName::Std);
    }
    if word == b"--client".as_slice() {
        return Some(OptionName::Client);
    }
    if word == b"--platforms".as_slice() {
        return Some(OptionName::Platforms);
    }
    if word == b"--workers".as_slice() {
        return Some(OptionName::Workers);
    }
    if word == b"--api".as_slice() {
        return Some(OptionName::Api);
    }
    if word == b"--except".as_slice() {
        return Some(OptionName::Except);
    }
    if word == b"--version".as_slice() {
        return Some(OptionName::Version);
    }
    if word == b"--seed".as_slice() {
        return Some(OptionName::Seed);
    }
    if word == b"--size".as_slice() {
        return Some(OptionName::Size);
    }
    None
}

fn is_among(names: &[OptionName], name: OptionName) -> bool
    ensures { Decides result (Has names.now name) }
{
    names.contains(&name)
}

/// Whether an option may be given in a mode.
pub(crate) fn is_own(mode: Mode, name: OptionName) -> bool
    ensures { Decides result (Has (needs mode) name ⊎ Has (permits mode) name) }
{
    is_among(mode.needs(), name) || is_among(mode.permits(), name)
}
