//! What mostly tells by itself that no declaration of a package is lost.
use go_base::list::List;

/// For each declaration of a package, by number, the numbers of others.
pub struct DeclarationOrder {
    /// Those that have to be settled before it.
    pub after: List<List<u32>>,
    /// Those of the names in the lengths of its arrays.
    pub lengths: List<List<u32>>,
    /// Those to which a step leads from it, by a name or by a method that is found, where it is flagged as reached.
    pub leads: Vec<List<u32>>,
    /// Flags of the declarations whose steps are told.
    pub reached: Vec<bool>,
}

impl Drop for DeclarationOrder {
    fn drop(self) {
        let DeclarationOrder {
            after: _,
            lengths: _,
            leads: _,
            reached: _,
        } = self;
    }
}
