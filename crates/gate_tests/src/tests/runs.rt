//! Runs of the gate.
use crate::tests::held::Held;
use crate::tests::store::Store;
use api_gate::run::run;
use go_base::steps::Steps;
use go_outside::memory_sink::MemorySink;
use std::alloc::Global;
use std::test::Fail;
use std::thread::Threads;

/// How a run ended.
#[derive(Drop)]
pub struct End {
    pub code: u8,
    /// How many packages were checked.
    pub checks: u64,
    out: MemorySink,
    err: MemorySink,
}

impl End {
    /// Whether these were the status, the output and the error output.
    pub fn is(&self, code: u8, report: &[u8], fault: &[u8]) -> bool {
        self.code == code && self.out.bytes() == report && self.err.bytes() == fault
    }
}

fn words_of(alloc: Global, words: &[&str]) -> Result<Vec<String>, Fail> {
    let mut all = Vec::new(alloc);
    for word in words {
        all.push(String::from_str(alloc, word)?)?;
    }
    Ok(all)
}

/// Runs the gate with these words.
pub fn end_of<R: Threads + Sync + AllocGlobal>(
    rt: &R,
    words: &[&str],
    files: &mut Store,
    gate: &Held,
) -> Result<End, Fail> {
    let alloc = rt.alloc();
    let words = words_of(alloc, words)?;
    let mut out = MemorySink::with_capacity(alloc, 1000)?;
    let mut err = MemorySink::with_capacity(alloc, 200_000)?;
    let mut steps = Steps::new(());
    let status = run(
        rt, alloc, &words, files, &mut out, &mut err, gate, &mut steps,
    );
    Ok(End {
        code: status.code(),
        checks: steps.end(),
        out,
        err,
    })
}
