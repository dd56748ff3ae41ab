//! Whether two lists of feature lines differ.
ghost use Rattle.std.specs.Prelude.{◌≡◌, ◌≢◌, Decides, IfOk, map, true};
ghost use Rattle.api_judge.specs.inner.Shapes.{AreAlike};
ghost use Rattle.api_lines.specs.Lines.{printed};

use api_lines::line::Line;
use go_base::memory::NoMemory;
use std::alloc::Global;

// Whether neither line has a context and their paths are equally long: then their texts are one exactly where their parts are.
fn are_alike(a: &Line, b: &Line) -> bool
    ensures { result ≡ true → AreAlike a.now b.now }
{
    a.context.is_none() && b.context.is_none() && a.path.bytes().len() == b.path.bytes().len()
}

fn have_same_parts(a: &Line, b: &Line) -> bool
    requires { AreAlike a.now b.now }
    ensures { Decides result (printed a.now ≡ printed b.now) }
{
    if a.path == b.path {
        return a.rest == b.rest;
    }
    false
}

fn have_same_text(alloc: Global, a: &Line, b: &Line) -> Result<bool, NoMemory>
    ensures { IfOk result (λ same. Decides same (printed a.now ≡ printed b.now)) }
{
    if are_alike(a, b) {
        return Ok(have_same_parts(a, b));
    }
    let first = a.printed(alloc)?;
    let second = b.printed(alloc)?;
    Ok(first == second)
}

/// Whether two lists of lines differ as texts.
pub fn differ(alloc: Global, before: &[Line], after: &[Line]) -> Result<bool, NoMemory>
    ensures { IfOk result (λ differs. Decides differs (map printed before.now ≢ map printed after.now)) }
{
    if before.len() != after.len() {
        return Ok(true);
    }
    for i in 0..before.len() {
        let same = have_same_text(alloc, &before[i], &after[i])?;
        if !same {
            return Ok(true);
        }
    }
    Ok(false)
}
