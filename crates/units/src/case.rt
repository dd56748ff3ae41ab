//! The files of a case, which are told line by line.
use crate::answer::answer;
use crate::question::Question;
use go_base::list::List;
use go_base::memory::NoMemory;
use go_base::text::Text;
use go_model::files::platform::Platform;
use go_outside::memory_files::FilePair;
use go_tags::platforms::platform;
use std::alloc::{AllocError, Global};
use std::thread::Threads;

/// The files that were told so far, the last of them apart.
#[derive(Drop)]
pub struct Case {
    pairs: List<FilePair>,
    barred: List<Text>,
    path: Vec<u8>,
    bytes: Vec<u8>,
}

fn out_of_memory(_: NoMemory) -> AllocError {
    AllocError
}

fn not_understood(alloc: Global) -> Result<Vec<u8>, AllocError> {
    Ok(format!(in alloc; "not understood\n")?.into_bytes())
}

impl Case {
    /// No file.
    pub fn new(alloc: Global) -> Case {
        Case {
            pairs: List::new(alloc),
            barred: List::new(alloc),
            path: Vec::new(alloc),
            bytes: Vec::new(alloc),
        }
    }

    // Puts the last file to the others.
    fn end_file(&mut self, alloc: Global) -> Result<(), AllocError> {
        if self.path.is_empty() {
            return Ok(());
        }
        let path = std::mem::replace(&mut self.path, Vec::new(alloc));
        let bytes = std::mem::replace(&mut self.bytes, Vec::new(alloc));
        self.pairs
            .push(FilePair {
                path: Text::from_vec(alloc, path).map_err(out_of_memory)?,
                bytes: Text::from_vec(alloc, bytes).map_err(out_of_memory)?,
            })
            .map_err(out_of_memory)
    }

    fn begin_file(&mut self, alloc: Global, side: &str, path: &str) -> Result<(), AllocError> {
        self.end_file(alloc)?;
        self.path.extend_from_slice(side.as_bytes())?;
        self.path.push(b'/')?;
        self.path.extend_from_slice(path.as_bytes())?;
        Ok(())
    }

    fn add_line(&mut self, text: &str) -> Result<(), AllocError> {
        self.bytes.extend_from_slice(text.as_bytes())?;
        self.bytes.push(b'\n')?;
        Ok(())
    }

    fn bar(&mut self, alloc: Global, path: &str) -> Result<(), AllocError> {
        let path = Text::of(alloc, path.as_bytes()).map_err(out_of_memory)?;
        self.barred.push(path).map_err(out_of_memory)
    }

    fn ask<R: Threads + Sync>(
        &mut self,
        rt: &R,
        alloc: Global,
        question: Question,
        name: &str,
    ) -> Result<Vec<u8>, AllocError> {
        let Some(platform) = platform(name.as_bytes()) else {
            return not_understood(alloc);
        };
        self.end_file(alloc)?;
        let pairs = std::mem::replace(&mut self.pairs, List::new(alloc));
        let barred = std::mem::replace(&mut self.barred, List::new(alloc));
        answer(rt, alloc, question, platform, pairs, barred)
    }

    /// Takes a line; what is to be printed.
    pub fn take<R: Threads + Sync>(
        &mut self,
        rt: &R,
        alloc: Global,
        line: &str,
    ) -> Result<Vec<u8>, AllocError> {
        if line.starts_with('#') {
            return Ok(format!(in alloc; "{line}\n")?.into_bytes());
        }
        if let Some(text) = line.strip_prefix("|") {
            self.add_line(text)?;
            return Ok(Vec::new(alloc));
        }
        match line.split_once(' ') {
            Some(("new", path)) => self.begin_file(alloc, "new", path)?,
            Some(("std", path)) => self.begin_file(alloc, "std", path)?,
            Some(("barred", path)) => self.bar(alloc, path)?,
            Some(("units", name)) => return self.ask(rt, alloc, Question::Units, name),
            Some(("features", name)) => return self.ask(rt, alloc, Question::Features, name),
            _ => return not_understood(alloc),
        }
        Ok(Vec::new(alloc))
    }
}
