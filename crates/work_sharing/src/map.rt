//! All results of jobs, by several workers.
ghost use Rattle.std.specs.Prelude.{◌≡◌, ◌<◌, ◌≤◌, ◌+◌, ◌∷◌, [], ℕ, Some, length, IfOk, IfSome, slice_get};
ghost use Rattle.work_sharing.specs.Results.{AreResults, AreRight, empty_rows};

use crate::jobs::Jobs;
use crate::table::ResultTable;
use crate::work::{Shared, shared_out};
use go_base::list::List;
use go_base::memory::NoMemory;
use go_base::steps::Steps;
use std::alloc::Global;
use std::thread::Threads;

// The result of a job: the one that is there already, or it is done now.
fn result_of<T: Drop, J: Jobs<T>, L: Copy + Send>(
    jobs: &J,
    row: Option<T>,
    number: usize,
    steps: &mut Steps<L>,
) -> Result<T, NoMemory>
    requires number { number < J.many jobs.now }
    requires right { IfSome row (λ x. J.gives jobs.now number x) }
    ensures gives { IfOk result (λ x. J.gives jobs.now number x) }
    ensures steps { steps.new ≤ steps.old + empty_rows (row ∷ []) }
{
    match row {
        Some(found) => Ok(found),
        None => jobs.run(0, number, steps),
    }
}

// The results of all jobs, of which some are there already: the others are done now.
fn completed<T: Drop, J: Jobs<T>, L: Copy + Send>(
    alloc: Global,
    jobs: &J,
    rows: List<Option<T>>,
    steps: &mut Steps<L>,
) -> Result<List<T>, NoMemory>
    requires count { length rows ≡ J.many jobs.now }
    requires right { AreRight (J.gives jobs.now) rows }
    ensures results { IfOk result (AreResults (J.gives jobs.now) (J.many jobs.now)) }
    ensures steps { steps.new ≤ steps.old + empty_rows rows }
{
    let mut results = List::new(alloc);
    let mut number = 0;
    for row in rows.into_vec() {
        let found = result_of(jobs, row, number, steps)?;
        results.push(found)?;
        number += 1;
    }
    Ok(results)
}

/// The results of jobs in their order, which so many workers do: each takes whichever job nobody has taken yet. A job that is left for
/// want of memory elsewhere is done by the caller. The counter rises by at most the number of the jobs.
pub fn dynamic_map<R: Threads + Sync, T: Send + Drop, J: Jobs<T> + Sync, L: Copy + Send>(
    rt: &R,
    alloc: Global,
    jobs: &J,
    workers: u32,
    steps: &mut Steps<L>,
) -> Result<List<T>, NoMemory>
    ensures results { IfOk result (AreResults (J.gives jobs.now) (J.many jobs.now)) }
    ensures steps { steps.new ≤ steps.old + J.many jobs.now }
{
    let count = jobs.count();
    if count == 0 {
        return Ok(List::new(alloc));
    }
    let owner = steps.owner();
    let (table, worker) = ResultTable::new(alloc, jobs, count)?;
    let Shared {
        mut worker,
        steps: counted,
        done,
    } = shared_out(rt, &table, jobs, worker, 0, workers, owner);
    steps.merge(counted);
    table.look(&mut worker);
    if !done {
        return Err(NoMemory);
    }
    let rows = table.close(alloc, worker)?;
    completed(alloc, jobs, rows, steps)
}
