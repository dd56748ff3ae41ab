//! The platforms that the gate knows: a system and an architecture of Go, with the size of `int`.
ghost use Rattle.std.specs.Prelude.{◌≡◌};
ghost use Rattle.go_model.specs.files.Platforms.{name_of, system_of, architecture_of, bits_of};

/// A platform, which is an operating system and an architecture.
#[derive(Clone, Copy, Debug, PartialEq, Eq)]
pub enum Platform {
    Linux386,
    LinuxArm,
    Windows386,
    LinuxAmd64,
    LinuxArm64,
    LinuxRiscv64,
    LinuxS390x,
    AndroidArm64,
    DarwinAmd64,
    DarwinArm64,
    IosArm64,
    FreebsdAmd64,
    IllumosAmd64,
    WindowsAmd64,
}

#[rattlefmt::skip]
impl Platform {
    /// Each platform once.
    pub const ALL: [Platform; 14] = [
        Platform::Linux386,     Platform::LinuxArm,     Platform::Windows386,   Platform::LinuxAmd64,
        Platform::LinuxArm64,   Platform::LinuxRiscv64, Platform::LinuxS390x,   Platform::AndroidArm64,
        Platform::DarwinAmd64,  Platform::DarwinArm64,  Platform::IosArm64,     Platform::FreebsdAmd64,
        Platform::IllumosAmd64, Platform::WindowsAmd64,
    ];

    /// The name: the system, `-` and the architecture, in ASCII.
    pub fn name(self) -> &'static [u8]
        ensures { result.now ≡ name_of self }
    {
        match self {
            Platform::Linux386     => b"linux-386",
            Platform::LinuxArm     => b"linux-arm",
            Platform::Windows386   => b"windows-386",
            Platform::LinuxAmd64   => b"linux-amd64",
            Platform::LinuxArm64   => b"linux-arm64",
            Platform::LinuxRiscv64 => b"linux-riscv64",
            Platform::LinuxS390x   => b"linux-s390x",
            Platform::AndroidArm64 => b"android-arm64",
            Platform::DarwinAmd64  => b"darwin-amd64",
            Platform::DarwinArm64  => b"darwin-arm64",
            Platform::IosArm64     => b"ios-arm64",
            Platform::FreebsdAmd64 => b"freebsd-amd64",
            Platform::IllumosAmd64 => b"illumos-amd64",
            Platform::WindowsAmd64 => b"windows-amd64",
        }
    }

    /// The system, as Go's `GOOS` names it.
    pub fn system(self) -> &'static [u8]
        ensures { result.now ≡ system_of self }
    {
        match self {
            Platform::Linux386     => b"linux",
            Platform::LinuxArm     => b"linux",
            Platform::Windows386   => b"windows",
            Platform::LinuxAmd64   => b"linux",
            Platform::LinuxArm64   => b"linux",
            Platform::LinuxRiscv64 => b"linux",
            Platform::LinuxS390x   => b"linux",
            Platform::AndroidArm64 => b"android",
            Platform::DarwinAmd64  => b"darwin",
            Platform::DarwinArm64  => b"darwin",
            Platform::IosArm64     => b"ios",
            Platform::FreebsdAmd64 => b"freebsd",
            Platform::IllumosAmd64 => b"illumos",
            Platform::WindowsAmd64 => b"windows",
        }
    }

    /// The architecture, as Go's `GOARCH` names it.
    pub fn architecture(self) -> &'static [u8]
        ensures { result.now ≡ architecture_of self }
    {
        match self {
            Platform::Linux386     => b"386",
            Platform::LinuxArm     => b"arm",
            Platform::Windows386   => b"386",
            Platform::LinuxAmd64   => b"amd64",
            Platform::LinuxArm64   => b"arm64",
            Platform::LinuxRiscv64 => b"riscv64",
            Platform::LinuxS390x   => b"s390x",
            Platform::AndroidArm64 => b"arm64",
            Platform::DarwinAmd64  => b"amd64",
            Platform::DarwinArm64  => b"arm64",
            Platform::IosArm64     => b"arm64",
            Platform::FreebsdAmd64 => b"amd64",
            Platform::IllumosAmd64 => b"amd64",
            Platform::WindowsAmd64 => b"amd64",
        }
    }

    /// The bits of `int`, `uint` and `uintptr`: 32 or 64.
    pub fn int_bits(self) -> u32
        ensures { result ≡ bits_of self }
    {
        match self {
            Platform::Linux386     => 32,
            Platform::LinuxArm     => 32,
            Platform::Windows386   => 32,
            Platform::LinuxAmd64   => 64,
            Platform::LinuxArm64   => 64,
            Platform::LinuxRiscv64 => 64,
            Platform::LinuxS390x   => 64,
            Platform::AndroidArm64 => 64,
            Platform::DarwinAmd64  => 64,
            Platform::DarwinArm64  => 64,
            Platform::IosArm64     => 64,
            Platform::FreebsdAmd64 => 64,
            Platform::IllumosAmd64 => 64,
            Platform::WindowsAmd64 => 64,
        }
    }
}
