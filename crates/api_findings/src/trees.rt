//! The trees of a run.
use go_base::text::Text;
use go_model::files::tree::Tree;

/// The trees of a run: the old one, where there is one, the new one and the standard library's; and the paths of the run's modules, which
/// no package of the standard library may have.
#[derive(Clone, Copy)]
pub struct RunTrees<'a> {
    pub old_tree: Option<&'a Tree>,
    pub tree: &'a Tree,
    pub std_tree: &'a Tree,
    pub barred: &'a [Text],
}
