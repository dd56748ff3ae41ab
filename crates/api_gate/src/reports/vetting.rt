//! The report of the mode `vet`.
ghost use Rattle.api_gate.specs.inner.Decisions.{IsClientDecision};

use crate::reports::decision::Decision;
use api_reports::clients::{ClientAnswer, clients_text, has_untyped};
use go_base::memory::NoMemory;
use go_model::files::platform::Platform;
use std::alloc::Global;

/// What is told of a client, platform by platform.
pub(crate) fn client_report(
    alloc: Global,
    platforms: &[Platform],
    answers: &[ClientAnswer],
) -> Decision
    ensures { IsClientDecision platforms.now answers.now result }
{
    match clients_text(alloc, platforms, answers) {
        Ok(text) => Decision::report(has_untyped(answers), text),
        Err(NoMemory) => Decision::NoMemory,
    }
}
