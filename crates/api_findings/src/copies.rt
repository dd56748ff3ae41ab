//! Copies of what was found.
ghost use Rattle.std.specs.Prelude.{◌≡◌, IfOk, slice_get};

use api_judge::verdict::Verdict;
use api_subjects::broken::Broken;
use api_texts::left_out::LeftOut;
use go_base::list::List;
use go_base::memory::NoMemory;
use go_base::text::Text;
use std::alloc::Global;

fn broken_copied(broken: &Broken) -> Result<Broken, NoMemory>
    ensures { IfOk result (λ copy. copy ≡ broken.now) }
{
    Ok(Broken {
        owner: broken.owner.copy()?,
        rule: broken.rule,
        subject: broken.subject.copy()?,
    })
}

fn breaks_copied(alloc: Global, breaks: &[Broken]) -> Result<List<Broken>, NoMemory>
    ensures { IfOk result (λ copy. copy ≡ breaks.now) }
{
    let mut copy = List::new(alloc);
    for broken in breaks {
        let same = broken_copied(broken)?;
        copy.push(same)?;
    }
    Ok(copy)
}

fn verdict_copied(alloc: Global, verdict: &Verdict) -> Result<Verdict, NoMemory>
    ensures { IfOk result (λ copy. copy ≡ verdict.now) }
{
    Ok(Verdict {
        breaks: breaks_copied(alloc, verdict.breaks.items())?,
        changed: verdict.changed,
    })
}

/// The same verdict as the one of this number, where there is one.
pub(crate) fn verdict_at(
    alloc: Global,
    verdicts: &[Verdict],
    number: usize,
) -> Result<Option<Verdict>, NoMemory>
    ensures { IfOk result (λ verdict. verdict ≡ slice_get verdicts.now number) }
{
    match verdicts.get(number) {
        None => Ok(None),
        Some(verdict) => Ok(Some(verdict_copied(alloc, verdict)?)),
    }
}

fn text_copied(text: &Text) -> Result<Text, NoMemory>
    ensures { IfOk result (λ copy. copy ≡ text.now) }
{
    text.copy()
}

fn texts_copied(alloc: Global, texts: &[Text]) -> Result<List<Text>, NoMemory>
    ensures { IfOk result (λ copy. copy ≡ texts.now) }
{
    let mut copy = List::new(alloc);
    for text in texts {
        let same = text_copied(text)?;
        copy.push(same)?;
    }
    Ok(copy)
}

fn left_out_copied(alloc: Global, left_out: &LeftOut) -> Result<LeftOut, NoMemory>
    ensures { IfOk result (λ copy. copy ≡ left_out.now) }
{
    Ok(LeftOut {
        old: left_out.old,
        new: texts_copied(alloc, left_out.new.items())?,
    })
}

/// The same as what was left out on the platform of this number, where there is one.
pub(crate) fn left_out_at(
    alloc: Global,
    left_out: &[LeftOut],
    number: usize,
) -> Result<Option<LeftOut>, NoMemory>
    ensures { IfOk result (λ copy. copy ≡ slice_get left_out.now number) }
{
    match left_out.get(number) {
        None => Ok(None),
        Some(omitted) => Ok(Some(left_out_copied(alloc, omitted)?)),
    }
}
