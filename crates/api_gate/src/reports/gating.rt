//! The report of the mode `gate`.
ghost use Rattle.std.specs.Prelude.{◌≡◌, ◌<◌, ◌++◌, ◌||◌, IfOk, length};
ghost use Rattle.std.specs.List.{list_any};
ghost use Rattle.api_gate.specs.inner.Decisions.{IsGateDecision, IsOfFindings};
ghost use Rattle.api_gate.specs.runs.Outcomes.{IsAdvice};
ghost use Rattle.api_judge.specs.Verdicts.{class_of, has_break};
ghost use Rattle.api_lines.specs.Merging.{HasNoContext};
ghost use Rattle.api_reports.specs.Reports.{judge_text};
ghost use Rattle.go_base.specs.Lists.{Each};

use crate::reports::advice::advice;
use crate::reports::decision::Decision;
use crate::reports::joining::joined;
use crate::reports::listing::{SignedText, signed_report};
use api_inputs::inputs::Inputs;
use api_judge::judge::{class, is_any_broken};
use api_judge::verdict::Verdict;
use api_lines::platform_lines::PlatformLines;
use api_reports::verdicts::judge_text;
use api_texts::left_out::LeftOut;
use api_words::option_name::Mode;
use api_words::request::Request;
use go_base::memory::NoMemory;
use go_base::text::Text;
use std::alloc::Global;

// Signed lines, what the judge says, and the advice.
fn gate_text(
    alloc: Global,
    request: &Request,
    verdicts: &[Verdict],
    left_out: &[LeftOut],
    signed: &[u8],
    advice: &[u8],
) -> Result<Text, NoMemory>
    ensures { IfOk result (λ text. text ≡ signed.now ++ judge_text request.now.platforms verdicts.now left_out.now ++ advice.now) }
{
    let judged = judge_text(alloc, request.platforms.items(), verdicts, left_out)?;
    let first = joined(alloc, signed, judged.bytes())?;
    joined(alloc, first.bytes(), advice)
}

// Whether a line is lost or something is broken.
fn is_broken(lost: bool, verdicts: &[Verdict]) -> bool
    ensures { result ≡ lost || list_any has_break verdicts.now }
{
    if lost {
        return true;
    }
    is_any_broken(verdicts)
}

// The report with these signed lines and this advice.
fn gate_with(
    alloc: Global,
    request: &Request,
    verdicts: &[Verdict],
    left_out: &[LeftOut],
    signed: &SignedText,
    advice: &[u8],
) -> Decision
    ensures { IsGateDecision request.now verdicts.now left_out.now signed.now.lost signed.now.text advice.now result }
{
    match gate_text(
        alloc,
        request,
        verdicts,
        left_out,
        signed.text.bytes(),
        advice,
    ) {
        Ok(text) => Decision::report(is_broken(signed.lost, verdicts), text),
        Err(NoMemory) => Decision::NoMemory,
    }
}

// The report with this advice.
fn gate_advised(
    alloc: Global,
    request: &Request,
    inputs: &Inputs,
    lists: PlatformLines,
    verdicts: &[Verdict],
    left_out: &[LeftOut],
    advice: &[u8],
) -> Decision
    requires mode { request.now.mode ≡ Mode.Gate }
    requires some { 0 < length request.now.platforms }
    requires same { length lists ≡ length request.now.platforms }
    requires plain { Each (Each HasNoContext) lists }
    requires advice { IsAdvice request.now.version (class_of verdicts.now) advice.now }
    ensures { IsOfFindings request.now inputs.now lists verdicts.now left_out.now result }
{
    match signed_report(alloc, request, inputs, lists) {
        Ok(signed) => gate_with(alloc, request, verdicts, left_out, &signed, advice),
        Err(NoMemory) => Decision::NoMemory,
    }
}

/// What the module lost and gained against the lines that were read, what is broken on each platform, how much was left out, the class of
/// the release, and the version that follows; or that the last version is refused.
pub(crate) fn gate_report(
    alloc: Global,
    request: &Request,
    inputs: &Inputs,
    lists: PlatformLines,
    verdicts: &[Verdict],
    left_out: &[LeftOut],
) -> Decision
    requires mode { request.now.mode ≡ Mode.Gate }
    requires some { 0 < length request.now.platforms }
    requires same { length lists ≡ length request.now.platforms }
    requires plain { Each (Each HasNoContext) lists }
    ensures { IsOfFindings request.now inputs.now lists verdicts.now left_out.now result }
{
    match advice(alloc, &request.version, class(verdicts)) {
        Ok(text) => gate_advised(
            alloc,
            request,
            inputs,
            lists,
            verdicts,
            left_out,
            text.bytes(),
        ),
        Err(fault) => Decision::unadvised(fault),
    }
}
