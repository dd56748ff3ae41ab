//! What was left out of trees.
use go_base::list::List;
use go_base::text::Text;

/// What was left out of a run's trees on a platform.
pub struct LeftOut {
    /// How many declarations of the old tree were left out, or 0 where there is none.
    pub old: usize,
    /// Those of the new tree by file and place, each as `FILE:LINE:COLUMN NAME: CAUSE`.
    pub new: List<Text>,
}

impl Drop for LeftOut {
    fn drop(self) {
        let LeftOut { old: _, new: _ } = self;
    }
}
