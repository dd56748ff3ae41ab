//! What a run is to write, before a byte of it is written.
use crate::reports::advice::AdviceFault;
use crate::status::Status;
use api_findings::api_worlds::error::PlatformError;
use api_inputs::inputs::InputError;
use api_texts::fixed::{memory_line, read_line, words_line};
use go_base::text::Text;

/// What a run is to write.
#[derive(Debug, Drop)]
pub enum Decision {
    /// The whole report, which holds no lost line, no break and no untyped client.
    Report(Text),
    /// The whole report, which holds one of these.
    Broken(Text),
    /// The words aren't good.
    Words,
    /// The input is refused, with this fault line.
    Refused(Text),
    /// The store failed.
    ReadFault,
    /// No memory was left.
    NoMemory,
}

impl Decision {
    ghost use Rattle.std.specs.Prelude.{◌≡◌};
    ghost use Rattle.api_gate.specs.inner.Decisions.{decision_of, outcome_of, report_of, unadvised, unfound};

    /// What is decided where the inputs aren't read: that they are refused, that the store failed, or that no memory was left.
    pub(crate) fn unread(error: InputError) -> Decision
        ensures { result ≡ decision_of error }
    {
        match error {
            InputError::Refused(line) => Decision::Refused(line),
            InputError::ReadFault => Decision::ReadFault,
            InputError::NoMemory => Decision::NoMemory,
        }
    }

    /// What is decided where nothing is found in the trees: that they are refused, or that no memory was left.
    pub(crate) fn unfound(error: PlatformError) -> Decision
        ensures { result ≡ unfound error }
    {
        match error {
            PlatformError::Refused(line) => Decision::Refused(line),
            PlatformError::NoMemory => Decision::NoMemory,
        }
    }

    /// The report with this text, which holds a lost line, a break or an untyped client, or doesn't.
    pub(crate) fn report(is_broken: bool, text: Text) -> Decision
        ensures { result ≡ report_of is_broken text }
    {
        if is_broken {
            Decision::Broken(text)
        } else {
            Decision::Report(text)
        }
    }

    /// What is decided where no version is advised: that the version is refused, or that no memory was left.
    pub(crate) fn unadvised(fault: AdviceFault) -> Decision
        ensures { result ≡ unadvised fault }
    {
        match fault {
            AdviceFault::Refused(line) => Decision::Refused(line),
            AdviceFault::NoMemory => Decision::NoMemory,
        }
    }

    /// What goes to the output: a report.
    pub fn output(&self) -> &[u8]
        ensures { result.now ≡ (outcome_of self.now).output }
    {
        match self {
            Decision::Report(text) => text.bytes(),
            Decision::Broken(text) => text.bytes(),
            _ => b"",
        }
    }

    /// What goes to the error output: the fault line, where there is no report.
    pub fn fault_line(&self) -> &[u8]
        ensures { result.now ≡ (outcome_of self.now).fault_line }
    {
        match self {
            Decision::Report(_) => b"",
            Decision::Broken(_) => b"",
            Decision::Words => words_line(),
            Decision::Refused(line) => line.bytes(),
            Decision::ReadFault => read_line(),
            Decision::NoMemory => memory_line(),
        }
    }

    /// The status, where no write fails.
    pub fn status(&self) -> Status
        ensures { result ≡ (outcome_of self.now).status }
    {
        match self {
            Decision::Report(_) => Status::Pass,
            Decision::Broken(_) => Status::Broken,
            Decision::Words => Status::Words,
            Decision::Refused(_) => Status::Refused,
            Decision::ReadFault => Status::ReadFault,
            Decision::NoMemory => Status::NoMemory,
        }
    }
}
