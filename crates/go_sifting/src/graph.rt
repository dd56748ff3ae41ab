//! What the declarations of a package have to do with one another.
use go_base::list::List;

/// For each declaration of a package, by number, the numbers of others.
pub struct DeclarationGraph {
    /// Those that it depends on: the ones of the names in it and, for a defined type, those of its methods.
    pub depends: List<List<u32>>,
    /// Those to which a step leads from it: by a name, or by a method that is found.
    pub leads: List<List<u32>>,
    /// Those that have to be settled before it.
    pub after: List<List<u32>>,
    /// Those of the names in the lengths of its arrays.
    pub lengths: List<List<u32>>,
}

impl Drop for DeclarationGraph {
    fn drop(self) {
        let DeclarationGraph {
            depends: _,
            leads: _,
            after: _,
            lengths: _,
        } = self;
    }
}
