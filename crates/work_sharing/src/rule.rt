//! The rule of a table of results, and the names of its steps.
use crate::jobs::Jobs;
use atomic_table::{Join, Play, Split, TableRule};
use std::collections::LinkedList;

/// What a worker knows. No value of it is made.
pub struct View {
    pub claimed: LinkedList<u64>,
    pub filled: LinkedList<u64>,
    pub seen: LinkedList<u64>,
}

/// A word and a slot for each job.
pub struct Rows;

impl<T, J: Jobs<T>> TableRule<Option<T>, View, J> for Rows {
    ghost use Rattle.work_sharing.specs.Rows.{Holds, empty_view};

    ghost holds = { λ jobs s. Holds (J.gives jobs) s };

    ghost first = { λ _. empty_view };
}

pub struct Claim;

impl<T> Play<Option<T>, View> for Claim {
    ghost use Rattle.work_sharing.specs.Rows.{claimed};

    ghost then = { claimed };
}

pub struct Fill;

impl<T> Play<Option<T>, View> for Fill {
    ghost use Rattle.work_sharing.specs.Rows.{filled};

    ghost then = { filled };
}

pub struct GiveBack;

impl<T> Play<Option<T>, View> for GiveBack {
    ghost use Rattle.work_sharing.specs.Rows.{given_back};

    ghost then = { given_back };
}

pub struct Look;

impl<T> Play<Option<T>, View> for Look {
    ghost use Rattle.work_sharing.specs.Rows.{looks};

    ghost then = { looks };
}

pub struct Apart;

impl Split<View> for Apart {
    ghost use Rattle.work_sharing.specs.Rows.{empty_view};

    ghost left = { λ v. v };

    ghost right = { λ _. empty_view };
}

pub struct Both;

impl Join<View> for Both {
    ghost use Rattle.work_sharing.specs.Rows.{empty_view, joined};

    ghost both = { joined };

    ghost spent = { empty_view };
}
