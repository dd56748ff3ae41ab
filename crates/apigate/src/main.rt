//! The program: the real folder, the standard streams and the words of the command line, handed to
//! the gate's top call.
#![tactic(auto)]

use api_gate::run::run;
use api_gate::status::Status;
use go_base::steps::Steps;
use go_outside::gate::OpenGate;
use go_outside::host_files::HostFiles;
use go_outside::host_sink::HostSink;
use std::io::ErrorKind;
use std::process::ExitCode;
use std::{env, io};

// The words after the program's name.
fn words_of(rt: &HostRuntime) -> io::Result<Vec<String>> {
    let mut words = Vec::new(rt.alloc());
    for word in env::args(rt)?.skip(1) {
        words.push(word)?;
    }
    Ok(words)
}

fn main(rt: HostRuntime) -> ExitCode {
    let words = match words_of(&rt) {
        Ok(words) => words,
        Err(error) if error.kind() == ErrorKind::OutOfMemory => {
            return ExitCode::from(Status::NoMemory.code());
        }
        // Words that aren't UTF-8 aren't good, as no words are.
        Err(_) => Vec::new(rt.alloc()),
    };
    let mut files = HostFiles::new(&rt);
    let mut out = HostSink::out(&rt);
    let mut err = HostSink::err(&rt);
    let mut steps = Steps::new(());
    let status = run(
        &rt,
        rt.alloc(),
        &words,
        &mut files,
        &mut out,
        &mut err,
        &OpenGate,
        &mut steps,
    );
    let _checks = steps.end();
    ExitCode::from(status.code())
}
