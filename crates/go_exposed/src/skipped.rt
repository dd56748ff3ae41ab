//! Declarations that are left out of a package.
use go_base::list::List;
use go_base::text::Text;
use go_syntax::name::Place;

/// Why a declaration is left out.
pub enum Cause {
    /// A number stands in it that the profile can't say.
    Number,
    /// It declares constants of a floating-point or complex type.
    ConstantType,
    /// It selects from an import that isn't found.
    ImportNotFound,
    /// It depends on another one that is beyond the profile, which has this as its first name.
    By(Text),
}

impl Drop for Cause {
    fn drop(self) {
        match self {
            Cause::Number | Cause::ConstantType | Cause::ImportNotFound => {}
            Cause::By(_) => {}
        }
    }
}

/// A declaration that is left out of a package.
pub struct Skipped {
    /// Where its first name stands.
    pub place: Place,
    /// The names that it declares; of a method its own.
    pub names: List<Text>,
    pub cause: Cause,
}

impl Drop for Skipped {
    fn drop(self) {
        let Skipped {
            place: _,
            names: _,
            cause: _,
        } = self;
    }
}
