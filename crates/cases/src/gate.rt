//! Runs of the gate.
use api_gate::run::run;
use archives::ending::{Ending, ending_of};
use archives::failing::Outside;
use go_base::steps::Steps;
use go_outside::gate::OpenGate;
use std::alloc::AllocError;
use std::thread::Threads;

/// Runs the gate with these words.
pub fn run_words<R: Threads + Sync + AllocGlobal>(
    rt: &R,
    words: &[String],
    outside: &mut Outside,
) -> Result<Ending, AllocError> {
    let mut steps = Steps::new(());
    let status = run(
        rt,
        rt.alloc(),
        words,
        &mut outside.files,
        &mut outside.output,
        &mut outside.error,
        &OpenGate,
        &mut steps,
    );
    let checks = steps.end();
    ending_of(rt.alloc(), outside, status.code(), checks)
}
