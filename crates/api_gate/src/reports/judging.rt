//! The reports of the modes `judge` and `advise`.
ghost use Rattle.std.specs.Prelude.{◌≡◌, ◌++◌, List, IfOk};
ghost use Rattle.api_gate.specs.inner.Decisions.{IsOfFindings};
ghost use Rattle.api_gate.specs.runs.Outcomes.{IsAdvice};
ghost use Rattle.api_inputs.specs.declared.inputs.Inputs.{Inputs};
ghost use Rattle.api_judge.specs.Verdicts.{class_of};
ghost use Rattle.api_lines.specs.declared.line.Line.{Line};
ghost use Rattle.api_reports.specs.Reports.{counted_class_text};

use crate::reports::advice::advice;
use crate::reports::decision::Decision;
use crate::reports::joining::joined;
use api_judge::judge::{class, is_any_broken};
use api_judge::verdict::Verdict;
use api_reports::verdicts::{counted_class_text, judge_text};
use api_texts::left_out::LeftOut;
use api_words::option_name::Mode;
use api_words::request::Request;
use go_base::memory::NoMemory;
use go_base::text::Text;
use std::alloc::Global;

/// What is broken on each platform, how much was left out, and the class of the release.
pub(crate) fn judge_report(
    alloc: Global,
    request: &Request,
    verdicts: &[Verdict],
    left_out: &[LeftOut],
) -> Decision
    requires { request.now.mode ≡ Mode.Judge }
    ensures { (i : Inputs) (lists : List (List Line)) → IsOfFindings request.now i lists verdicts.now left_out.now result }
{
    match judge_text(alloc, request.platforms.items(), verdicts, left_out) {
        Ok(text) => Decision::report(is_any_broken(verdicts), text),
        Err(NoMemory) => Decision::NoMemory,
    }
}

fn advise_text(
    alloc: Global,
    request: &Request,
    verdicts: &[Verdict],
    left_out: &[LeftOut],
    advice: &[u8],
) -> Result<Text, NoMemory>
    ensures { IfOk result (λ text. text ≡ counted_class_text request.now.platforms left_out.now (class_of verdicts.now) ++ advice.now) }
{
    let first = counted_class_text(alloc, request.platforms.items(), left_out, class(verdicts))?;
    joined(alloc, first.bytes(), advice)
}

// The report with this advice.
fn advise_with(
    alloc: Global,
    request: &Request,
    verdicts: &[Verdict],
    left_out: &[LeftOut],
    advice: &[u8],
) -> Decision
    requires mode { request.now.mode ≡ Mode.Advise }
    requires advice { IsAdvice request.now.version (class_of verdicts.now) advice.now }
    ensures { (i : Inputs) (lists : List (List Line)) → IsOfFindings request.now i lists verdicts.now left_out.now result }
{
    match advise_text(alloc, request, verdicts, left_out, advice) {
        Ok(text) => Decision::Report(text),
        Err(NoMemory) => Decision::NoMemory,
    }
}

/// How much was left out, the class of the release, and the version that follows, where the last one is given; or that the last one is
/// refused.
pub(crate) fn advise_report(
    alloc: Global,
    request: &Request,
    verdicts: &[Verdict],
    left_out: &[LeftOut],
) -> Decision
    requires { request.now.mode ≡ Mode.Advise }
    ensures { (i : Inputs) (lists : List (List Line)) → IsOfFindings request.now i lists verdicts.now left_out.now result }
{
    match advice(alloc, &request.version, class(verdicts)) {
        Ok(text) => advise_with(alloc, request, verdicts, left_out, text.bytes()),
        Err(fault) => Decision::unadvised(fault),
    }
}
