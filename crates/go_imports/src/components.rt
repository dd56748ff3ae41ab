//! A hint of the strongly connected components of packages that need each other, by depth-first search with stacks of
//! its own. Nothing is proved of it: whoever takes it checks it.
use go_base::list::List;
use go_base::memory::NoMemory;
use std::alloc::Global;

fn number_at(numbers: &[usize], place: usize) -> usize {
    match numbers.get(place) {
        Some(number) => *number,
        None => 0,
    }
}

fn put(numbers: &mut [usize], place: usize, number: usize) {
    if place < numbers.len() {
        numbers[place] = number;
    }
}

fn need_at(graph: &[List<usize>], node: usize, place: usize) -> Option<usize> {
    match graph.get(node) {
        Some(needs) => needs.items().get(place).copied(),
        None => None,
    }
}

fn zeros(alloc: Global, count: usize) -> Result<Vec<usize>, NoMemory> {
    let mut numbers = Vec::new(alloc);
    for _ in 0..count {
        numbers.push(0)?;
    }
    Ok(numbers)
}

// A package whose needs are being visited, and the place of the next of them.
#[derive(Clone, Copy)]
struct Visit {
    node: usize,
    place: usize,
}

#[derive(Drop)]
struct Search {
    // when each package was found, from 1, and the earliest found one that it leads to
    found: Vec<usize>,
    earliest: Vec<usize>,
    // the number of each package's component, from 1
    component: Vec<usize>,
    open: Vec<usize>,
    visits: Vec<Visit>,
    count: usize,
    closed: usize,
}

impl Search {
    fn enter(&mut self, node: usize) -> Result<(), NoMemory> {
        self.count = self.count.saturating_add(1);
        put(&mut self.found, node, self.count);
        put(&mut self.earliest, node, self.count);
        self.open.push(node)?;
        self.visits.push(Visit { node, place: 0 })?;
        Ok(())
    }

    fn lower(&mut self, node: usize, to: usize) {
        if to < number_at(&self.earliest, node) {
            put(&mut self.earliest, node, to);
        }
    }

    fn close(&mut self, node: usize) {
        self.closed = self.closed.saturating_add(1);
        for _ in 0..usize::MAX {
            match self.open.pop() {
                None => return,
                Some(member) => {
                    put(&mut self.component, member, self.closed);
                    if member == node {
                        return;
                    }
                }
            }
        }
    }

    fn leave(&mut self, node: usize) -> Result<(), NoMemory> {
        let earliest = number_at(&self.earliest, node);
        if earliest == number_at(&self.found, node) {
            self.close(node);
        }
        if let Some(visit) = self.visits.pop() {
            self.lower(visit.node, earliest);
            self.visits.push(visit)?;
        }
        Ok(())
    }

    fn meet(&mut self, node: usize, need: usize) -> Result<(), NoMemory> {
        if need >= self.found.len() {
            return Ok(());
        }
        if number_at(&self.found, need) == 0 {
            return self.enter(need);
        }
        if number_at(&self.component, need) == 0 {
            let to = number_at(&self.found, need);
            self.lower(node, to);
        }
        Ok(())
    }

    fn run(&mut self, graph: &[List<usize>]) -> Result<(), NoMemory> {
        for _ in 0..usize::MAX {
            match self.visits.pop() {
                None => return Ok(()),
                Some(visit) => match need_at(graph, visit.node, visit.place) {
                    Some(need) => {
                        self.visits.push(Visit {
                            node: visit.node,
                            place: visit.place.saturating_add(1),
                        })?;
                        self.meet(visit.node, need)?;
                    }
                    None => self.leave(visit.node)?,
                },
            }
        }
        Ok(())
    }
}

/// The number of each package's component. Where the hint is right, a package that is needed has no greater one.
pub(crate) fn components(alloc: Global, graph: &[List<usize>]) -> Result<Vec<usize>, NoMemory> {
    let mut search = Search {
        found: zeros(alloc, graph.len())?,
        earliest: zeros(alloc, graph.len())?,
        component: zeros(alloc, graph.len())?,
        open: Vec::new(alloc),
        visits: Vec::new(alloc),
        count: 0,
        closed: 0,
    };
    for root in 0..graph.len() {
        if number_at(&search.found, root) == 0 {
            search.enter(root)?;
            search.run(graph)?;
        }
    }
    let Search {
        found: _,
        earliest: _,
        component,
        open: _,
        visits: _,
        count: _,
        closed: _,
    } = search;
    Ok(component)
}
