//! Build tags: which of them a platform satisfies, and which words are systems or architectures.
ghost use Rattle.std.specs.Prelude.{◌≡◌};
ghost use Rattle.go_model.specs.files.BuildTags.{is_one_of, known_systems, known_architectures, unix_systems, release_tags, is_system_tag, is_satisfied};

use crate::names::is_one_of;
use go_model::files::platform::Platform;

#[rattlefmt::skip]
const KNOWN_SYSTEMS: [&[u8]; 18] = [
    b"aix",     b"android", b"darwin",  b"dragonfly", b"freebsd", b"hurd",
    b"illumos", b"ios",     b"js",      b"linux",     b"nacl",    b"netbsd",
    b"openbsd", b"plan9",   b"solaris", b"wasip1",    b"windows", b"zos",
];

#[rattlefmt::skip]
const KNOWN_ARCHITECTURES: [&[u8]; 24] = [
    b"386",       b"amd64",       b"amd64p32", b"arm",    b"armbe",   b"arm64",
    b"arm64be",   b"loong64",     b"mips",     b"mipsle", b"mips64",  b"mips64le",
    b"mips64p32", b"mips64p32le", b"ppc",      b"ppc64",  b"ppc64le", b"riscv",
    b"riscv64",   b"s390",        b"s390x",    b"sparc",  b"sparc64", b"wasm",
];

#[rattlefmt::skip]
const UNIX_SYSTEMS: [&[u8]; 12] = [
    b"aix",     b"android", b"darwin", b"dragonfly", b"freebsd", b"hurd",
    b"illumos", b"ios",     b"linux",  b"netbsd",    b"openbsd", b"solaris",
];

#[rattlefmt::skip]
const RELEASE_TAGS: [&[u8]; 21] = [
    b"go1.1",  b"go1.2",  b"go1.3",  b"go1.4",  b"go1.5",  b"go1.6",  b"go1.7",
    b"go1.8",  b"go1.9",  b"go1.10", b"go1.11", b"go1.12", b"go1.13", b"go1.14",
    b"go1.15", b"go1.16", b"go1.17", b"go1.18", b"go1.19", b"go1.20", b"go1.21",
];

/// Whether the word is a system that file names may carry.
#[tactic(auto, unfolding(go_model::specs::files::BuildTags::known_systems))]
pub fn is_known_system(word: &[u8]) -> bool
    ensures { result ≡ is_one_of known_systems word.now }
{
    is_one_of(&KNOWN_SYSTEMS, word)
}

/// Whether the word is an architecture that file names may carry.
#[tactic(auto, unfolding(go_model::specs::files::BuildTags::known_architectures))]
pub fn is_known_architecture(word: &[u8]) -> bool
    ensures { result ≡ is_one_of known_architectures word.now }
{
    is_one_of(&KNOWN_ARCHITECTURES, word)
}

#[tactic(auto, unfolding(go_model::specs::files::BuildTags::unix_systems))]
fn is_unix_system(system: &[u8]) -> bool
    ensures { result ≡ is_one_of unix_systems system.now }
{
    is_one_of(&UNIX_SYSTEMS, system)
}

#[tactic(auto, unfolding(go_model::specs::files::BuildTags::release_tags))]
fn is_release_tag(tag: &[u8]) -> bool
    ensures { result ≡ is_one_of release_tags tag.now }
{
    is_one_of(&RELEASE_TAGS, tag)
}

#[tactic(auto, unfolding(go_model::specs::files::BuildTags::is_system_tag))]
fn is_system_tag(system: &[u8], tag: &[u8]) -> bool
    ensures { result ≡ is_system_tag system.now tag.now }
{
    tag == system
        || (tag == b"linux".as_slice() && system == b"android".as_slice())
        || (tag == b"solaris".as_slice() && system == b"illumos".as_slice())
        || (tag == b"darwin".as_slice() && system == b"ios".as_slice())
        || (tag == b"unix".as_slice() && is_unix_system(system))
}

/// Whether the platform satisfies the tag.
#[tactic(auto, unfolding(go_model::specs::files::BuildTags::is_satisfied))]
pub fn is_satisfied(platform: Platform, tag: &[u8]) -> bool
    ensures { result ≡ is_satisfied platform tag.now }
{
    is_system_tag(platform.system(), tag)
        || tag == platform.architecture()
        || tag == b"gc".as_slice()
        || is_release_tag(tag)
}
