//! The lines of a package, apart by how they begin.
ghost use Rattle.std.specs.Prelude.{◌≡◌, ◌++◌, [], OnOk};
ghost use Rattle.std.specs.List.Sorted.{IsPermutation};
ghost use Rattle.go_base.specs.Growing.{Grows};

use crate::line::Line;
use go_base::memory::NoMemory;
use std::alloc::Global;
use std::marker::Model;

/// The lines of a package that are gathered. Where those that begin alike come in order, so do all.
pub(crate) struct PackageLines {
    constants: Vec<Line>,
    functions: Vec<Line>,
    // Those of methods of pointers.
    pointers: Vec<Line>,
    methods: Vec<Line>,
    types: Vec<Line>,
    // Those of variables, and of whatever else.
    variables: Vec<Line>,
    // How many lines are of types that ended.
    ended: usize,
}

impl Drop for PackageLines {
    fn drop(self) {
        let PackageLines {
            constants: _,
            functions: _,
            pointers: _,
            methods: _,
            types: _,
            variables: _,
            ended: _,
        } = self;
    }
}

impl Model for PackageLines {
    ghost use Rattle.std.specs.Prelude.{◌++◌, List as Sequence};
    ghost use Rattle.api_lines.specs.declared.line.Line.{Line as Feature};

    ghost Value = { Sequence Feature };

    ghost view = { λ p. p.constants.items ++ p.functions.items ++ p.pointers.items ++ p.methods.items ++ p.types.items ++ p.variables.items };
}

/// Adds a line.
pub(crate) fn push(all: &mut Vec<Line>, line: Line) -> Result<(), NoMemory>
    ensures { OnOk result (Grows (λ l. line ≡ l) all.old.items all.new.items) }
{
    all.push(line)?;
    Ok(())
}

// Moves lines behind others.
fn append(all: &mut Vec<Line>, more: &mut Vec<Line>) -> Result<(), NoMemory>
    ensures all { OnOk result (all.new.items ≡ all.old.items ++ more.old.items) }
    ensures none { OnOk result (more.new.items ≡ []) }
{
    all.append(more)?;
    Ok(())
}

// The byte at a place of what follows the path, or 0 behind its end.
fn byte_at(line: &Line, at: usize) -> u8 {
    let rest = line.rest.bytes();
    if at < rest.len() { rest[at] } else { 0 }
}

// Puts the lines from a place on, which are of one path, in order.
fn sort_from(lines: &mut [Line], from: usize)
    ensures { IsPermutation lines.old lines.new }
{
    let to = lines.len();
    if from < to {
        lines[from..to].sort_unstable_by(|l, m| l.rest.cmp(&m.rest));
    }
}

fn sort_last(lines: &mut Vec<Line>, from: usize)
    ensures { Grows (λ l. ⊥) lines.old.items lines.new.items }
{
    sort_from(lines, from);
}

impl PackageLines {
    /// No line.
    pub(crate) fn new(alloc: Global) -> PackageLines
        ensures { result ≡ [] }
    {
        PackageLines {
            constants: Vec::new(alloc),
            functions: Vec::new(alloc),
            pointers: Vec::new(alloc),
            methods: Vec::new(alloc),
            types: Vec::new(alloc),
            variables: Vec::new(alloc),
            ended: 0,
        }
    }

    // Adds a line of a method.
    fn add_method(&mut self, line: Line) -> Result<(), NoMemory>
        ensures { OnOk result (Grows (λ l. line ≡ l) self.old self.new) }
    {
        if byte_at(&line, 8) == b'*' {
            return push(&mut self.pointers, line);
        }
        push(&mut self.methods, line)
    }

    /// Adds a line.
    pub(crate) fn add(&mut self, line: Line) -> Result<(), NoMemory>
        ensures { OnOk result (Grows (λ l. line ≡ l) self.old self.new) }
    {
        let first = byte_at(&line, 0);
        if first == b'c' {
            return push(&mut self.constants, line);
        }
        if first == b'f' {
            return push(&mut self.functions, line);
        }
        if first == b'm' {
            return self.add_method(line);
        }
        if first == b't' {
            return push(&mut self.types, line);
        }
        push(&mut self.variables, line)
    }

    /// Puts the lines of the type that was added last in order.
    pub(crate) fn end_type(&mut self)
        ensures { Grows (λ l. ⊥) self.old self.new }
    {
        sort_last(&mut self.types, self.ended);
        self.ended = self.types.len();
    }

    /// Moves the lines behind those of other packages.
    pub(crate) fn move_behind(&mut self, all: &mut Vec<Line>) -> Result<(), NoMemory>
        ensures all { OnOk result (all.new.items ≡ all.old.items ++ self.old) }
        ensures none { OnOk result (self.new ≡ []) }
    {
        append(all, &mut self.constants)?;
        append(all, &mut self.functions)?;
        append(all, &mut self.pointers)?;
        append(all, &mut self.methods)?;
        append(all, &mut self.types)?;
        append(all, &mut self.variables)?;
        self.ended = 0;
        Ok(())
    }
}
