//! Build constraints and headers of Go files.
use go_base::boxed::Box;
use go_base::list::List;
use go_base::text::Text;

/// A part of a build expression: a sign or a tag.
#[derive(Debug, Drop)]
pub enum ConstraintPart {
    /// `||`
    Or,
    /// `&&`
    And,
    /// `!`
    Not,
    /// `(`
    Open,
    /// `)`
    Close,
    /// The bytes of a tag.
    Tag(Text),
}

/// A build expression. `Or` and `And` are chains of two operands and more: the first operand, and
/// the others.
#[derive(Debug, Drop)]
pub enum Constraint {
    Or(Box<Constraint>, List<Constraint>),
    And(Box<Constraint>, List<Constraint>),
    Not(Box<Constraint>),
    Paren(Box<Constraint>),
    /// The bytes of a tag.
    Tag(Text),
}

/// What stands before the declarations of a Go file.
#[derive(Debug, Drop)]
pub struct Header {
    /// The expression of the file's build line, where it has one.
    pub constraint: Option<Constraint>,
    /// The name in the package clause, where the file begins with one.
    pub clause: Option<Text>,
}
