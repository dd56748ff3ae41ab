//! The reports of the modes.
ghost use Rattle.std.specs.Prelude.{◌≡◌, ◌<◌, length};
ghost use Rattle.api_gate.specs.inner.Decisions.{IsOfFindings};
ghost use Rattle.api_lines.specs.Merging.{HasNoContext};
ghost use Rattle.go_base.specs.Lists.{Each};

use crate::reports::decision::Decision;
use crate::reports::gating::gate_report;
use crate::reports::judging::{advise_report, judge_report};
use crate::reports::listing::{features_report, signed_report};
use crate::reports::making::make_report;
use api_findings::findings::Findings;
use api_inputs::inputs::Inputs;
use api_judge::verdict::Verdict;
use api_lines::platform_lines::PlatformLines;
use api_reports::left_out::skipped_text;
use api_texts::left_out::LeftOut;
use api_words::option_name::Mode;
use api_words::request::Request;
use go_base::memory::NoMemory;
use std::alloc::Global;
use std::mem;

// The report on the features and the verdicts of the platforms, and on what was left out.
fn report_on(
    alloc: Global,
    request: &Request,
    inputs: &Inputs,
    lists: PlatformLines,
    verdicts: &[Verdict],
    left_out: &[LeftOut],
) -> Decision
    requires finds { request.now.mode ≡ Mode.Vet → ⊥ }
    requires some { 0 < length request.now.platforms }
    requires same { length lists ≡ length request.now.platforms }
    requires plain { Each (Each HasNoContext) lists }
    ensures { IsOfFindings request.now inputs.now lists verdicts.now left_out.now result }
{
    match request.mode {
        Mode::Features => match features_report(alloc, request, lists) {
            Ok(text) => Decision::Report(text),
            Err(NoMemory) => Decision::NoMemory,
        },
        Mode::Frozen => match signed_report(alloc, request, inputs, lists) {
            Ok(signed) => signed.decision(),
            Err(NoMemory) => Decision::NoMemory,
        },
        Mode::Judge => judge_report(alloc, request, verdicts, left_out),
        Mode::Advise => advise_report(alloc, request, verdicts, left_out),
        Mode::Gate => gate_report(alloc, request, inputs, lists, verdicts, left_out),
        Mode::Skipped => match skipped_text(alloc, request.platforms.items(), left_out) {
            Ok(text) => Decision::Report(text),
            Err(NoMemory) => Decision::NoMemory,
        },
        Mode::Vet => unreachable!(),
        Mode::Make => match make_report(alloc, request, lists, verdicts) {
            Ok(text) => Decision::Report(text),
            Err(NoMemory) => Decision::NoMemory,
        },
    }
}

/// The report of a request on its inputs and on what is found there; or that the last version is refused, where the mode advises a
/// version; or that no memory was left.
pub fn report(alloc: Global, request: &Request, inputs: &Inputs, mut found: Findings) -> Decision
    requires finds { request.now.mode ≡ Mode.Vet → ⊥ }
    requires some { 0 < length request.now.platforms }
    requires same { length found.features ≡ length request.now.platforms }
    requires plain { Each (Each HasNoContext) found.features }
    ensures { IsOfFindings request.now inputs.now found.features found.verdicts found.left_out result }
{
    let features = mem::replace(&mut found.features, PlatformLines::new(alloc));
    let verdicts = found.verdicts.items();
    let left_out = found.left_out.items();
    report_on(alloc, request, inputs, features, verdicts, left_out)
}
