//! The report of the mode `make`.
ghost use Rattle.std.specs.Prelude.{◌≡◌, ◌<◌, IfOk, length};
ghost use Rattle.api_gate.specs.inner.Decisions.{IsClassedText, IsMakeText};
ghost use Rattle.api_gate.specs.runs.Outcomes.{IsMadeText};
ghost use Rattle.api_lines.specs.Merging.{HasNoContext};
ghost use Rattle.go_base.specs.Lists.{Each};

use crate::reports::joining::joined;
use api_judge::judge::class;
use api_judge::verdict::Verdict;
use api_lines::line::Line;
use api_lines::platform_lines::PlatformLines;
use api_reports::made::made_text;
use api_reports::verdicts::{class_text, count_breaks};
use api_words::request::{MadeTrees, Request};
use go_base::memory::NoMemory;
use go_base::text::Text;
use std::alloc::Global;

// What the generator's trees have, where there are such.
fn numbers(
    alloc: Global,
    made: &Option<MadeTrees>,
    features: &[Line],
    verdicts: &[Verdict],
) -> Result<Text, NoMemory>
    ensures { IfOk result (IsMadeText made.now features.now verdicts.now) }
{
    match made {
        None => Text::of(alloc, b""),
        Some(made) => {
            let breaks = count_breaks(verdicts)?;
            made_text(alloc, made.size, features.len(), breaks)
        }
    }
}

// That, and then the class of the release.
fn with_class(
    alloc: Global,
    request: &Request,
    features: &[Line],
    verdicts: &[Verdict],
) -> Result<Text, NoMemory>
    ensures { IfOk result (IsClassedText request.now features.now verdicts.now) }
{
    let first = numbers(alloc, &request.made, features, verdicts)?;
    let second = class_text(alloc, class(verdicts))?;
    joined(alloc, first.bytes(), second.bytes())
}

/// How many packages and feature lines the generator's trees have and how much is broken, and the class of the release.
pub(crate) fn make_report(
    alloc: Global,
    request: &Request,
    lists: PlatformLines,
    verdicts: &[Verdict],
) -> Result<Text, NoMemory>
    requires some { 0 < length request.now.platforms }
    requires same { length lists ≡ length request.now.platforms }
    requires plain { Each (Each HasNoContext) lists }
    ensures { IfOk result (IsMakeText request.now lists verdicts.now) }
{
    let features = lists.into_list(alloc, request.platforms.items())?;
    with_class(alloc, request, features.items(), verdicts)
}
