//! The trees of a run with a client.
use go_base::text::Text;
use go_model::files::tree::Tree;

/// The module's tree, the standard library's and the folder of a client; and the paths that no package of the standard library may
/// have, that of the module among them.
#[derive(Clone, Copy)]
pub struct ClientTrees<'a> {
    pub tree: &'a Tree,
    pub std_tree: &'a Tree,
    pub client: &'a Tree,
    pub barred: &'a [Text],
}
