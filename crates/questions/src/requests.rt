//! Questions on the words of a command line.
use crate::refusal::Refusal;
use crate::words;
use api_advice::release::Release;
use api_words::option_name::Mode;
use api_words::request::{AskedVersion, MadeTrees, Request};
use api_words::words::read_words;
use go_base::text::Text;
use go_model::files::platform::Platform;
use std::alloc::Global;

fn word(alloc: Global, digits: &str) -> Result<String, Refusal> {
    match String::from_utf8(words::bytes(alloc, digits)?) {
        Ok(word) => Ok(word),
        Err(_) => Err(Refusal::NotAQuestion),
    }
}

fn mode_name(mode: Mode) -> &'static str {
    match mode {
        Mode::Features => "features",
        Mode::Frozen => "frozen",
        Mode::Judge => "judge",
        Mode::Advise => "advise",
        Mode::Gate => "gate",
        Mode::Skipped => "skipped",
        Mode::Vet => "vet",
        Mode::Make => "make",
    }
}

fn push_str(out: &mut Vec<u8>, text: &str) -> Result<(), Refusal> {
    out.extend_from_slice(text.as_bytes())?;
    Ok(())
}

fn push_digits(alloc: Global, out: &mut Vec<u8>, text: &Text) -> Result<(), Refusal> {
    let digits = hex::encode(alloc, text.bytes())?;
    push_str(out, digits.as_str())
}

fn push_text(
    alloc: Global,
    out: &mut Vec<u8>,
    name: &str,
    text: Option<&Text>,
) -> Result<(), Refusal> {
    push_str(out, name)?;
    match text {
        None => push_str(out, "none"),
        Some(text) => push_digits(alloc, out, text),
    }
}

fn push_platforms(out: &mut Vec<u8>, platforms: &[Platform]) -> Result<(), Refusal> {
    push_str(out, " platforms=")?;
    for (at, platform) in platforms.iter().enumerate() {
        if at > 0 {
            out.push(b',')?;
        }
        out.extend_from_slice(platform.name())?;
    }
    Ok(())
}

fn push_files(alloc: Global, out: &mut Vec<u8>, files: &[Text]) -> Result<(), Refusal> {
    push_str(out, " api=")?;
    if files.is_empty() {
        return push_str(out, "none");
    }
    for (at, file) in files.iter().enumerate() {
        if at > 0 {
            out.push(b',')?;
        }
        push_digits(alloc, out, file)?;
    }
    Ok(())
}

fn push_release(alloc: Global, out: &mut Vec<u8>, release: Option<Release>) -> Result<(), Refusal> {
    match release {
        None => push_str(out, " release=none"),
        Some(it) => {
            let text = format!(in alloc; " release={}.{}.{}", it.major, it.minor, it.patch)?;
            push_str(out, text.as_str())
        }
    }
}

fn push_version(
    alloc: Global,
    out: &mut Vec<u8>,
    version: &Option<AskedVersion>,
) -> Result<(), Refusal> {
    match version {
        None => push_str(out, " version=none"),
        Some(asked) => {
            push_text(alloc, out, " version=", Some(&asked.word))?;
            push_release(alloc, out, asked.release)
        }
    }
}

fn push_made(alloc: Global, out: &mut Vec<u8>, made: Option<MadeTrees>) -> Result<(), Refusal> {
    match made {
        None => push_str(out, " made=none"),
        Some(it) => {
            let text = format!(in alloc; " made={},{}", it.seed, it.size)?;
            push_str(out, text.as_str())
        }
    }
}

fn told(alloc: Global, request: &Request) -> Result<Vec<u8>, Refusal> {
    let mut out = Vec::new(alloc);
    push_str(&mut out, mode_name(request.mode))?;
    push_text(alloc, &mut out, " old=", request.old.as_ref())?;
    push_text(alloc, &mut out, " new=", Some(&request.new))?;
    push_text(alloc, &mut out, " std=", request.std.as_ref())?;
    push_text(alloc, &mut out, " client=", request.client.as_ref())?;
    push_platforms(&mut out, request.platforms.items())?;
    let workers = format!(in alloc; " workers={}", request.workers)?;
    push_str(&mut out, workers.as_str())?;
    push_files(alloc, &mut out, request.api.items())?;
    push_text(alloc, &mut out, " except=", request.except.as_ref())?;
    push_version(alloc, &mut out, &request.version)?;
    push_made(alloc, &mut out, request.made)?;
    Ok(out)
}

/// The request that words make, each given in hexadecimal digits.
pub fn words_answer(alloc: Global, digits: &[&str]) -> Result<Vec<u8>, Refusal> {
    let mut all = Vec::new(alloc);
    for digits in digits {
        all.push(word(alloc, digits)?)?;
    }
    match read_words(alloc, &all)? {
        None => Ok(Vec::from_slice(alloc, b"bad words")?),
        Some(request) => told(alloc, &request),
    }
}
