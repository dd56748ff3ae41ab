//! A table of results, whose rows workers claim.
ghost use Rattle.std.specs.Prelude.{◌≡◌, ◌<◌, ◌≤◌, ◌+◌, ◌∷◌, ℕ, None, Some, [], true, false, length, Ok, Err, IfOk, OnOk, IfErr, OnErr, slice_get, vec_len, vec_capacity};
ghost use Rattle.std.specs.Mem.Slots.{IsFull, slots_items, slots_len};
ghost use Rattle.go_base.specs.Lists.{Has};
ghost use Rattle.work_sharing.specs.Rows.{IsFit, joined, empty_view, with_claimed, with_filled, with_seen};
ghost use Rattle.work_sharing.specs.Results.{AreKept, AreOf, IsDone};

use crate::jobs::Jobs;
use crate::rule::{Apart, Both, Claim, Fill, GiveBack, Look, Rows, View};
use atomic_table::{Closed, Seat, Table};
use go_base::list::List;
use go_base::memory::NoMemory;
use go_base::steps::Steps;
use std::alloc::Global;

/// What a worker claims, has filled and has seen of a table. It has no bytes.
pub type Worker<T> = Seat<Option<T>, View>;

/// A row for each of these jobs, which is empty until a worker puts a result into it.
#[derive(Drop)]
pub struct ResultTable<T, J: Jobs<T>> {
    table: Table<Option<T>, View, J, Rows, Global>,
    ghost sized: { table.shared.table_id.words ≡ table.shared.table_id.slots },
}

// The result of each row whose word is 2, and none of the others.
fn emptied<T: Drop>(
    mut closed: Closed<Option<T>, Global>,
    mut room: Vec<Option<T>>,
) -> Vec<Option<T>>
    requires full { IsFull closed.words × IsFull closed.slots × (slots_len closed.words ≡ slots_len closed.slots) }
    requires room { (room.items ≡ []) × (slots_len closed.slots ≤ vec_capacity room) }
    ensures len { vec_len result ≡ slots_len closed.slots }
    ensures kept { AreKept (slots_items closed.words) (slots_items closed.slots) result.items }
{
    let count = closed.slot_count();
    for i in 0..count {
        let word = closed.word(i);
        let slot = closed.take(i);
        let Ok(()) = room.push(filled_slot(word, slot)) else {
            unreachable!()
        };
    }
    closed.free();
    room
}

fn filled_slot<T: Drop>(word: u64, slot: Option<T>) -> Option<T>
    ensures filled { word ≡ 2 → result ≡ slot }
    ensures other { (word ≡ 2 → ⊥) → result ≡ None }
{
    if word == 2 { slot } else { None }
}

impl<T: Drop, J: Jobs<T>> ResultTable<T, J> {
    /// A table with an empty row for each of so many jobs, and a worker who claims none.
    pub fn new(
        alloc: Global,
        jobs: &J,
        count: usize,
    ) -> Result<(ResultTable<T, J>, Worker<T>), NoMemory>
        ensures rows { IfOk result (λ t. (t.0.table.shared.table_id.words ≡ count) × (t.0.table.shared.key ≡ jobs.now)) }
        ensures worker { IfOk result (λ t. (t.1.table_id ≡ t.0.table.shared.table_id) × (t.1.me ≡ (empty_view, []))) }
    {
        let words = Vec::from_elem(alloc, 0u64, count)?;
        let (table, worker) = Table::vacant(alloc, words.as_slice(), count, jobs)?;
        Ok((ResultTable { table }, worker))
    }

    /// How many rows it has.
    pub fn rows(&self) -> usize
        ensures { result ≡ self.now.table.shared.table_id.words }
    {
        self.table.word_count()
    }

    /// Claims a row where no worker claims it.
    fn claim(&self, worker: &mut Worker<T>, row: usize) -> bool
        requires { (worker.old.table_id ≡ self.now.table.shared.table_id) × (row < self.now.table.shared.table_id.words) × (worker.old.me.1 ≡ []) }
        ensures table { worker.new.table_id ≡ worker.old.table_id }
        ensures claimed { result ≡ true → worker.new.me ≡ (with_claimed worker.old.me.0 row, (row, None) ∷ []) }
        ensures fresh { result ≡ true → Has worker.old.me.0.filled row → ⊥ }
        ensures seen { result ≡ false → worker.new.me ≡ (with_seen worker.old.me.0 row, []) }
    {
        self.table
            .shared
            .compare_exchange::<Claim>(worker, row, 0, 1)
            == 0
    }

    /// Puts a result into a row that the worker claims and holds.
    fn fill(&self, worker: &mut Worker<T>, row: usize, value: T)
        requires table { worker.old.table_id ≡ self.now.table.shared.table_id }
        requires row { row < self.now.table.shared.table_id.words }
        requires held { (worker.old.me.1 ≡ (row, None) ∷ []) × Has worker.old.me.0.claimed row }
        requires right { J.gives self.now.table.shared.key row value }
        ensures table { worker.new.table_id ≡ worker.old.table_id }
        ensures filled { worker.new.me ≡ (with_filled worker.old.me.0 row, []) }
    {
        let _none = self.table.shared.exchange(worker, row, Some(value));
        self.table.shared.store::<Fill>(worker, row, 2);
    }

    /// Gives the slot of a row back empty. The row stays claimed.
    fn give_back(&self, worker: &mut Worker<T>, row: usize)
        requires table { worker.old.table_id ≡ self.now.table.shared.table_id }
        requires row { row < self.now.table.shared.table_id.words }
        requires held { (worker.old.me.1 ≡ (row, None) ∷ []) × Has worker.old.me.0.claimed row × (Has worker.old.me.0.filled row → ⊥) }
        ensures table { worker.new.table_id ≡ worker.old.table_id }
        ensures same { worker.new.me ≡ (worker.old.me.0, []) }
    {
        self.table.shared.store::<GiveBack>(worker, row, 1);
    }

    /// A new worker, who claims no row.
    pub fn split(&self, worker: &mut Worker<T>) -> Worker<T>
        requires { (worker.old.table_id ≡ self.now.table.shared.table_id) × (0 < self.now.table.shared.table_id.words) }
        ensures same { (worker.new.table_id ≡ worker.old.table_id) × (worker.new.me ≡ worker.old.me) }
        ensures new { (result.table_id ≡ worker.old.table_id) × (result.me ≡ (empty_view, [])) }
    {
        self.table.shared.split_seat::<Apart>(worker)
    }

    /// The worker then knows what either of the two knew.
    pub fn rejoin(&self, worker: &mut Worker<T>, other: Worker<T>)
        requires table { (worker.old.table_id ≡ self.now.table.shared.table_id) × (other.table_id ≡ self.now.table.shared.table_id) × (0 < self.now.table.shared.table_id.words) }
        requires idle { other.me.1 ≡ [] }
        ensures { (worker.new.table_id ≡ worker.old.table_id) × (worker.new.me ≡ (joined worker.old.me.0 other.me.0, worker.old.me.1)) }
    {
        self.table.shared.join_seat::<Both>(worker, other);
    }

    /// Tells that the worker claims no row twice, and none that isn't there.
    pub fn look(&self, worker: &mut Worker<T>)
        requires { (worker.old.table_id ≡ self.now.table.shared.table_id) × (0 < self.now.table.shared.table_id.words) }
        ensures same { (worker.new.table_id ≡ worker.old.table_id) × (worker.new.me ≡ worker.old.me) }
        ensures fit { IsFit self.now.table.shared.table_id.words worker.new.me.0 }
    {
        self.table.shared.load::<Look>(worker, 0);
    }

    /// Claims the row where no worker claims it, does its job, and puts the result there. `false` means that it was claimed already.
    /// After `NoMemory` the row stays claimed, and empty.
    pub fn take_on<L: Copy>(
        &self,
        jobs: &J,
        worker: &mut Worker<T>,
        number: u32,
        row: usize,
        steps: &mut Steps<L>,
    ) -> Result<bool, NoMemory>
        requires table { worker.old.table_id ≡ self.now.table.shared.table_id }
        requires jobs { (jobs.now ≡ self.now.table.shared.key) × (J.many jobs.now ≡ self.now.table.shared.table_id.words) }
        requires row { row < self.now.table.shared.table_id.words }
        requires idle { worker.old.me.1 ≡ [] }
        ensures table { worker.new.table_id ≡ worker.old.table_id }
        ensures idle { worker.new.me.1 ≡ [] }
        ensures taken { result ≡ Ok true → worker.new.me.0 ≡ with_filled (with_claimed worker.old.me.0 row) row }
        ensures seen { result ≡ Ok false → worker.new.me.0 ≡ with_seen worker.old.me.0 row }
        ensures left { OnErr result (worker.new.me.0 ≡ with_claimed worker.old.me.0 row) }
        ensures steps { steps.new + length worker.old.me.0.claimed ≤ steps.old + length worker.new.me.0.claimed }
    {
        if !self.claim(worker, row) {
            return Ok(false);
        }
        match jobs.run(number, row, steps) {
            Ok(result) => {
                self.fill(worker, row, result);
                Ok(true)
            }
            Err(NoMemory) => {
                self.give_back(worker, row);
                Err(NoMemory)
            }
        }
    }

    /// Goes once through all rows, from this one on, and takes on each that nobody claims.
    pub fn work<L: Copy>(
        &self,
        jobs: &J,
        worker: &mut Worker<T>,
        number: u32,
        start: usize,
        steps: &mut Steps<L>,
    ) -> Result<(), NoMemory>
        requires table { worker.old.table_id ≡ self.now.table.shared.table_id }
        requires jobs { (jobs.now ≡ self.now.table.shared.key) × (J.many jobs.now ≡ self.now.table.shared.table_id.words) }
        requires start { start < self.now.table.shared.table_id.words }
        requires idle { worker.old.me.1 ≡ [] }
        requires done { IsDone worker.old.me.0 }
        ensures table { worker.new.table_id ≡ worker.old.table_id }
        ensures idle { worker.new.me.1 ≡ [] }
        ensures done { OnOk result (IsDone worker.new.me.0) }
        ensures steps { steps.new + length worker.old.me.0.claimed ≤ steps.old + length worker.new.me.0.claimed }
    {
        let count = self.table.word_count();
        let ahead = count - start;
        for i in 0..count {
            let row = if i < ahead { start + i } else { i - ahead };
            match self.take_on(jobs, worker, number, row, steps) {
                Ok(_) => {}
                Err(NoMemory) => return Err(NoMemory),
            }
        }
        Ok(())
    }

    /// What the rows have, given back: the result of each row that is filled.
    pub fn close(self, alloc: Global, worker: Worker<T>) -> Result<List<Option<T>>, NoMemory>
        requires { worker.table_id ≡ self.table.shared.table_id }
        ensures len { IfOk result (λ xs. length xs ≡ self.table.shared.table_id.words) }
        ensures rows { IfOk result (AreOf (J.gives self.table.shared.key) worker.me.0) }
    {
        let ResultTable { table } = self;
        let room = Vec::with_capacity(alloc, table.slot_count())?;
        let closed = table.close_with(worker);
        Ok(List::from_vec(emptied(closed, room)))
    }
}
