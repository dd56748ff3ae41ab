//! Strong components, by a search with stacks of its own. Nothing is proved of them: they are checked where they are used.
use crate::rows::row;
use go_base::list::List;
use go_base::memory::NoMemory;
use std::alloc::Global;

fn zeros(alloc: Global, count: usize) -> Result<Vec<u32>, NoMemory> {
    let mut numbers = Vec::new(alloc);
    for _ in 0..count {
        numbers.push(0)?;
    }
    Ok(numbers)
}

fn at(numbers: &[u32], number: u32) -> u32 {
    match numbers.get(number as usize) {
        Some(found) => *found,
        None => 0,
    }
}

fn put(numbers: &mut [u32], number: u32, value: u32) {
    let place = number as usize;
    if place < numbers.len() {
        numbers[place] = value;
    }
}

// How far a search has come: when each number was found, the first that it leads back to, its component, what is open, and
// the way here with the places in the rows.
#[derive(Drop)]
struct Search {
    found: Vec<u32>,
    least: Vec<u32>,
    component: Vec<u32>,
    open: Vec<u32>,
    way: Vec<(u32, u32)>,
    founds: u32,
    components: u32,
}

fn begun(alloc: Global, count: usize) -> Result<Search, NoMemory> {
    let found = zeros(alloc, count)?;
    let least = zeros(alloc, count)?;
    let component = zeros(alloc, count)?;
    Ok(Search {
        found,
        least,
        component,
        open: Vec::new(alloc),
        way: Vec::new(alloc),
        founds: 0,
        components: 0,
    })
}

impl Search {
    fn enter(&mut self, number: u32) -> Result<(), NoMemory> {
        self.founds = self.founds.saturating_add(1);
        put(&mut self.found, number, self.founds);
        put(&mut self.least, number, self.founds);
        self.open.push(number)?;
        self.way.push((number, 0))?;
        Ok(())
    }

    fn lower(&mut self, number: u32, to: u32) {
        if to < at(&self.least, number) {
            put(&mut self.least, number, to);
        }
    }

    // All that is open from this number on is a component.
    fn close(&mut self, number: u32) {
        self.components = self.components.saturating_add(1);
        for _ in 0..usize::MAX {
            match self.open.pop() {
                None => return,
                Some(member) => {
                    put(&mut self.component, member, self.components);
                    if member == number {
                        return;
                    }
                }
            }
        }
    }

    fn leave(&mut self, number: u32) {
        let least = at(&self.least, number);
        if least == at(&self.found, number) {
            self.close(number);
        }
        if let Some((before, _)) = self.way.last() {
            let before = *before;
            self.lower(before, least);
        }
    }

    fn meet(&mut self, number: u32, next: u32) -> Result<(), NoMemory> {
        if next as usize >= self.found.len() {
            return Ok(());
        }
        let found = at(&self.found, next);
        if found == 0 {
            return self.enter(next);
        }
        if at(&self.component, next) == 0 {
            self.lower(number, found);
        }
        Ok(())
    }

    fn walk(&mut self, rows: &[List<u32>]) -> Result<(), NoMemory> {
        for _ in 0..usize::MAX {
            match self.way.pop() {
                None => return Ok(()),
                Some((number, place)) => match row(rows, number as usize).get(place as usize) {
                    None => self.leave(number),
                    Some(next) => {
                        self.way.push((number, place.saturating_add(1)))?;
                        self.meet(number, *next)?;
                    }
                },
            }
        }
        Ok(())
    }
}

/// The number of each number's component: no row has one of a higher component.
pub(crate) fn components(alloc: Global, rows: &[List<u32>]) -> Result<Vec<u32>, NoMemory> {
    let mut search = begun(alloc, rows.len())?;
    for root in 0..rows.len() {
        let Ok(number) = u32::try_from(root) else {
            break;
        };
        if at(&search.found, number) == 0 {
            search.enter(number)?;
            search.walk(rows)?;
        }
    }
    let Search { component, .. } = search;
    Ok(component)
}
