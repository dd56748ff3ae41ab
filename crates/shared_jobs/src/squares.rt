//! Squares of numbers, as jobs.
ghost use Rattle.std.specs.Prelude.{◌≡◌, ◌≤◌, ◌+◌, ◌*◌, ◌^◌, ◌<◌, ℕ, IfOk};
ghost use Rattle.work_sharing.specs.Results.{AreResults};

use go_base::list::List;
use go_base::memory::NoMemory;
use go_base::steps::Steps;
use std::alloc::{AllocError, Global};
use std::fmt::Write;
use std::thread::Threads;
use work_sharing::jobs::Jobs;
use work_sharing::map::dynamic_map;

// So many numbers from 0.
#[derive(Drop)]
struct Numbers {
    count: u32,
}

impl Jobs<u64> for Numbers {
    ghost many = { λ numbers. numbers.count };

    ghost gives = { λ numbers number x. x ≡ number * number };

    fn count(&self) -> usize {
        self.count as usize
    }

    fn run<L: Copy>(
        &self,
        _worker: u32,
        number: usize,
        _steps: &mut Steps<L>,
    ) -> Result<u64, NoMemory> {
        let wide = number as u64;
        Ok(wide * wide)
    }
}

// The squares of so many numbers, by so many workers.
fn squares<R: Threads + Sync>(
    rt: &R,
    alloc: Global,
    count: u32,
    workers: u32,
) -> Result<List<u64>, NoMemory>
    ensures { IfOk result (AreResults (λ number x. x ≡ number * number) count) }
{
    let numbers = Numbers { count };
    let mut steps = Steps::new(());
    let outcome = dynamic_map(rt, alloc, &numbers, workers, &mut steps);
    let _none = steps.end();
    outcome
}

/// The answer to a line of input.
pub fn answer<R: Threads + Sync>(rt: &R, alloc: Global, line: &str) -> Result<String, AllocError> {
    let Some((count, workers)) = line.split_once(' ') else {
        return format!(in alloc; "not a case");
    };
    let (Ok(count), Ok(workers)) = (count.parse::<u32>(), workers.parse::<u32>()) else {
        return format!(in alloc; "not a case");
    };
    let mut text = String::new(alloc);
    match squares(rt, alloc, count, workers) {
        Ok(found) => {
            for number in found.items() {
                write!(text, "{number};")?;
            }
        }
        Err(NoMemory) => text.push_str("out of memory")?,
    }
    Ok(text)
}
