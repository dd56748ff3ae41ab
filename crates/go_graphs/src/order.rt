//! Orders in which work goes fast. Nothing is proved of them.
use crate::rows::row;
use go_base::list::List;
use go_base::memory::NoMemory;
use std::alloc::Global;

// Visits what isn't seen yet, with a stack of its own.
fn visit(
    rows: &[List<u32>],
    seen: &mut [bool],
    stack: &mut Vec<(u32, u32)>,
    order: &mut Vec<u32>,
) -> Result<(), NoMemory> {
    for _ in 0..usize::MAX {
        match stack.pop() {
            None => return Ok(()),
            Some((number, at)) => match row(rows, number as usize).get(at as usize) {
                Some(next) => {
                    stack.push((number, at.saturating_add(1)))?;
                    let place = *next as usize;
                    if place < seen.len() && !seen[place] {
                        seen[place] = true;
                        stack.push((*next, 0))?;
                    }
                }
                None => order.push(number)?,
            },
        }
    }
    Ok(())
}

/// An order of the numbers in which each comes after those in its row, where no walk goes round.
pub fn depth_first(alloc: Global, rows: &[List<u32>]) -> Result<Vec<u32>, NoMemory> {
    let mut seen = crate::flags::no_flags(alloc, rows.len())?;
    let mut order = Vec::new(alloc);
    let mut stack = Vec::new(alloc);
    for root in 0..rows.len() {
        let Ok(number) = u32::try_from(root) else {
            return Ok(order);
        };
        if root < seen.len() && !seen[root] {
            seen[root] = true;
            stack.push((number, 0))?;
            visit(rows, &mut seen, &mut stack, &mut order)?;
        }
    }
    Ok(order)
}
