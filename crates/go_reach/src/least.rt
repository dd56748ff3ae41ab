//! The least flagged number of a row.
ghost use Rattle.std.specs.Prelude.{◌≡◌};
ghost use Rattle.go_reach.specs.LeastOthers.{IsLeastOther, lesser, with_next};

use go_graphs::flags::flag;

fn lesser(least: Option<usize>, number: usize) -> Option<usize>
    ensures { result ≡ lesser least number }
{
    match least {
        None => Some(number),
        Some(found) => {
            if number < found {
                Some(number)
            } else {
                Some(found)
            }
        }
    }
}

// The least number so far, where one more may count: one that is flagged and isn't this one.
fn with_next(least: Option<usize>, flags: &[bool], own: usize, number: usize) -> Option<usize>
    ensures { result ≡ with_next flags.now own least number }
{
    if number == own {
        return least;
    }
    if !flag(flags, number) {
        return least;
    }
    lesser(least, number)
}

/// The least number of a row that is flagged and isn't this one.
pub fn least_other(row: &[u32], flags: &[bool], own: usize) -> Option<usize>
    ensures { IsLeastOther row.now flags.now own result }
{
    let mut least = None;
    for number in row {
        least = with_next(least, flags, own, *number as usize);
    }
    least
}
