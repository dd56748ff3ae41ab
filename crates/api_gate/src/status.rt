//! How a run ends.
ghost use Rattle.std.specs.Prelude.{◌≡◌};
ghost use Rattle.api_gate.specs.Statuses.{code_of};

/// How a run ends. Its number is the exit status of the program.
#[derive(Clone, Copy, Debug, PartialEq, Eq)]
pub enum Status {
    /// The report was written, and it holds no lost line, no break and no untyped client.
    Pass,
    /// The report was written, and it holds one of these.
    Broken,
    /// The words of the command line aren't good.
    Words,
    /// The input was refused, with a fault line that names the cause.
    Refused,
    /// The store failed.
    ReadFault,
    /// A sink failed.
    WriteFault,
    /// No memory was left.
    NoMemory,
}

impl Status {
    /// 0 to 6, in the order of the variants.
    pub fn code(self) -> u8
        ensures { result ≡ code_of self }
    {
        match self {
            Status::Pass => 0,
            Status::Broken => 1,
            Status::Words => 2,
            Status::Refused => 3,
            Status::ReadFault => 4,
            Status::WriteFault => 5,
            Status::NoMemory => 6,
        }
    }
}
