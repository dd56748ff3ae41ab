//! The features on all platforms, and what they lost and gained against frozen lines, as text.
ghost use Rattle.std.specs.Prelude.{◌≡◌, ◌<◌, IfOk, length};
ghost use Rattle.api_gate.specs.inner.Decisions.{IsComparison, IsFeaturesText, report_of};
ghost use Rattle.api_gate.specs.runs.Outcomes.{IsSignedReport};
ghost use Rattle.api_lines.specs.Merging.{HasNoContext};
ghost use Rattle.api_reports.specs.Reports.{has_loss, signed_text};
ghost use Rattle.go_base.specs.Lists.{Each};

use crate::reports::decision::Decision;
use api_frozen::compare::compare;
use api_frozen::signed::Signed;
use api_inputs::inputs::Inputs;
use api_lines::line::Line;
use api_lines::platform_lines::PlatformLines;
use api_reports::reports::{features_text, has_loss, signed_text};
use api_words::request::Request;
use go_base::memory::NoMemory;
use go_base::text::Text;
use std::alloc::Global;

/// Lines with a sign, as text.
#[derive(Debug, Drop)]
pub(crate) struct SignedText {
    /// Whether a line is lost.
    pub lost: bool,
    pub text: Text,
}

impl SignedText {
    /// The report of these lines alone.
    pub(crate) fn decision(self) -> Decision
        ensures { result ≡ report_of self.lost self.text }
    {
        let SignedText { lost, text } = self;
        Decision::report(lost, text)
    }
}

/// The text of the features on all platforms.
pub(crate) fn features_report(
    alloc: Global,
    request: &Request,
    lists: PlatformLines,
) -> Result<Text, NoMemory>
    requires some { 0 < length request.now.platforms }
    requires same { length lists ≡ length request.now.platforms }
    requires plain { Each (Each HasNoContext) lists }
    ensures { IfOk result (IsFeaturesText request.now lists) }
{
    let features = lists.into_list(alloc, request.platforms.items())?;
    features_text(alloc, features.items())
}

fn text_of(alloc: Global, lines: &[Signed]) -> Result<SignedText, NoMemory>
    ensures { IfOk result (λ signed. (signed.lost ≡ has_loss lines.now) × (signed.text ≡ signed_text lines.now)) }
{
    let text = signed_text(alloc, lines)?;
    Ok(SignedText {
        lost: has_loss(lines),
        text,
    })
}

// What these features lost and gained.
fn compared(alloc: Global, inputs: &Inputs, features: &[Line]) -> Result<SignedText, NoMemory>
    ensures { IfOk result (λ signed. IsComparison inputs.now features.now signed.lost signed.text) }
{
    let report = compare(
        alloc,
        features,
        inputs.required.items(),
        inputs.exceptions.items(),
    )?;
    text_of(alloc, report.lines.items())
}

/// What the features on all platforms lost and gained against the lines that were read.
pub(crate) fn signed_report(
    alloc: Global,
    request: &Request,
    inputs: &Inputs,
    lists: PlatformLines,
) -> Result<SignedText, NoMemory>
    requires some { 0 < length request.now.platforms }
    requires same { length lists ≡ length request.now.platforms }
    requires plain { Each (Each HasNoContext) lists }
    ensures { IfOk result (λ signed. IsSignedReport request.now inputs.now lists signed.lost signed.text) }
{
    let features = lists.into_list(alloc, request.platforms.items())?;
    compared(alloc, inputs, features.items())
}
