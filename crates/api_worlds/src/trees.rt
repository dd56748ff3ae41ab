//! Trees on a platform.
use go_base::text::Text;
use go_model::files::platform::Platform;
use go_model::files::tree::Tree;

/// A module's tree over the standard library's on a platform, with the paths that no package of the standard library may have: those of
/// the run's modules, that of the tree among them.
#[derive(Clone, Copy)]
pub struct PlatformTrees<'a> {
    pub tree: &'a Tree,
    pub std_tree: &'a Tree,
    pub barred: &'a [Text],
    pub platform: Platform,
}
