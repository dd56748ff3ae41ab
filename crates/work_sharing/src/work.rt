//! How the rows of a table are shared among workers.
ghost use Rattle.std.specs.Prelude.{◌≡◌, ◌<◌, ◌≤◌, ◌+◌, ◌^◌, [], true, length};
ghost use Rattle.std.specs.Thread.{IsSync, IsSend};
ghost use Rattle.work_sharing.specs.Results.{IsDone};

use crate::jobs::Jobs;
use crate::table::{ResultTable, Worker};
use go_base::steps::Steps;
use std::thread::{Threads, join};

/// What some workers leave: what they know together, what they counted, and whether none of them lacked memory.
pub struct Shared<T, L> {
    pub worker: Worker<T>,
    pub steps: Steps<L>,
    pub done: bool,
}

fn alone<T: Drop, J: Jobs<T>, L: Copy + Send>(
    table: &ResultTable<T, J>,
    jobs: &J,
    mut worker: Worker<T>,
    first: u32,
    owner: L,
) -> Shared<T, L>
    requires table { (worker.table_id ≡ table.now.table.shared.table_id) × (0 < table.now.table.shared.table_id.words) }
    requires jobs { (jobs.now ≡ table.now.table.shared.key) × (J.many jobs.now ≡ table.now.table.shared.table_id.words) }
    requires worker { (worker.me.1 ≡ []) × IsDone worker.me.0 }
    ensures table { result.worker.table_id ≡ worker.table_id }
    ensures idle { result.worker.me.1 ≡ [] }
    ensures done { result.done ≡ true → IsDone result.worker.me.0 }
    ensures steps { result.steps + length worker.me.0.claimed ≤ length result.worker.me.0.claimed }
{
    let start = first as usize % table.rows();
    let mut steps = Steps::new(owner);
    let done = table
        .work(jobs, &mut worker, first, start, &mut steps)
        .is_ok();
    Shared {
        worker,
        steps,
        done,
    }
}

fn together<T: Drop, J: Jobs<T>, L: Copy + Send>(
    table: &ResultTable<T, J>,
    ours: Shared<T, L>,
    theirs: Shared<T, L>,
) -> Shared<T, L>
    requires table { (ours.worker.table_id ≡ table.now.table.shared.table_id) × (theirs.worker.table_id ≡ table.now.table.shared.table_id) × (0 < table.now.table.shared.table_id.words) }
    requires idle { (ours.worker.me.1 ≡ []) × (theirs.worker.me.1 ≡ []) }
    requires done { (ours.done ≡ true → IsDone ours.worker.me.0) × (theirs.done ≡ true → IsDone theirs.worker.me.0) }
    ensures table { result.worker.table_id ≡ ours.worker.table_id }
    ensures idle { result.worker.me.1 ≡ [] }
    ensures done { result.done ≡ true → IsDone result.worker.me.0 }
    ensures claims { length result.worker.me.0.claimed ≡ length ours.worker.me.0.claimed + length theirs.worker.me.0.claimed }
    ensures steps { result.steps ≤ ours.steps + theirs.steps }
{
    let Shared {
        mut worker,
        mut steps,
        done,
    } = ours;
    let Shared {
        worker: other,
        steps: counted,
        done: other_done,
    } = theirs;
    table.rejoin(&mut worker, other);
    steps.merge(counted);
    Shared {
        worker,
        steps,
        done: done && other_done,
    }
}

/// So many workers, the first of which has this number, go through all rows, each in a thread of its own where one can be made.
#[cycle(share)]
pub fn shared_out<R: Threads + Sync, T: Send + Drop, J: Jobs<T> + Sync, L: Copy + Send>(
    rt: &R,
    table: &ResultTable<T, J>,
    jobs: &J,
    worker: Worker<T>,
    first: u32,
    count: u32,
    owner: L,
) -> Shared<T, L>
    requires table { (worker.table_id ≡ table.now.table.shared.table_id) × (0 < table.now.table.shared.table_id.words) }
    requires jobs { (jobs.now ≡ table.now.table.shared.key) × (J.many jobs.now ≡ table.now.table.shared.table_id.words) }
    requires worker { (worker.me.1 ≡ []) × IsDone worker.me.0 }
    requires numbers { first + count < 2 ^ 32 }
    ensures table { result.worker.table_id ≡ worker.table_id }
    ensures idle { result.worker.me.1 ≡ [] }
    ensures done { result.done ≡ true → IsDone result.worker.me.0 }
    ensures steps { result.steps + length worker.me.0.claimed ≤ length result.worker.me.0.claimed }
{
    if count < 2 {
        return alone(table, jobs, worker, first, owner);
    }
    let half = count / 2;
    let others = count - half;
    let next = first + half;
    let mut worker = worker;
    let other = table.split(&mut worker);
    let front = move || -> Shared<T, L>
        requires { IsSync R.row × IsSync J.row × IsSend T.row × IsSend L.row × (worker.table_id ≡ table.now.table.shared.table_id) × (0 < table.now.table.shared.table_id.words) × (jobs.now ≡ table.now.table.shared.key) × (J.many jobs.now ≡ table.now.table.shared.table_id.words) × (worker.me.1 ≡ []) × IsDone worker.me.0 × (first + half < 2 ^ 32) }
        ensures { (result.worker.table_id ≡ worker.table_id) × (result.worker.me.1 ≡ []) × (result.done ≡ true → IsDone result.worker.me.0) × (result.steps + length worker.me.0.claimed ≤ length result.worker.me.0.claimed) }
    { shared_out(rt, table, jobs, worker, first, half, owner) };
    let back = move || -> Shared<T, L>
        requires { IsSync R.row × IsSync J.row × IsSend T.row × IsSend L.row × (other.table_id ≡ table.now.table.shared.table_id) × (0 < table.now.table.shared.table_id.words) × (jobs.now ≡ table.now.table.shared.key) × (J.many jobs.now ≡ table.now.table.shared.table_id.words) × (other.me.1 ≡ []) × IsDone other.me.0 × (next + others < 2 ^ 32) }
        ensures { (result.worker.table_id ≡ other.table_id) × (result.worker.me.1 ≡ []) × (result.done ≡ true → IsDone result.worker.me.0) × (result.steps + length other.me.0.claimed ≤ length result.worker.me.0.claimed) }
    { shared_out(rt, table, jobs, other, next, others, owner) };
    let (ours, theirs) = join(rt, front, back);
    together(table, ours, theirs)
}
