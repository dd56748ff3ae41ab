//! The rules that a new version has to keep.
ghost use Rattle.std.specs.Prelude.{◌≡◌};
ghost use Rattle.api_subjects.specs.Rules.{rule_name};

/// A rule that a new version has to keep.
#[derive(Clone, Copy, Debug, PartialEq, Eq)]
pub enum Rule {
    /// A public package stays public.
    Package,
    /// A package keeps its name.
    Name,
    /// An exported object stays.
    Removed,
    /// An object stays what it is, but that a function may become a variable.
    Kind,
    /// A constant keeps its type or kind and its value.
    Constant,
    /// Types that have to correspond match.
    TypeRule,
    /// So do the types underneath two defined types.
    Underlying,
    /// A struct keeps its exported fields.
    Fields,
    /// What is selected through embedded fields stays a field, and found through a pointer where it was.
    Selectable,
    /// A type that can be compared stays so.
    Comparable,
    /// An interface keeps its methods, and gets none where it is open.
    InterfaceMethods,
    /// A type keeps its methods.
    MethodSet,
    /// A type implements the interfaces with unexported methods that it did.
    Implements,
    /// Two types stay two.
    OneToOne,
}

impl Rule {
    /// Its name, as reports have it.
    pub fn name(self) -> &'static [u8]
        ensures { result.now ≡ rule_name self }
    {
        match self {
            Rule::Package => b"package",
            Rule::Name => b"name",
            Rule::Removed => b"removed",
            Rule::Kind => b"kind",
            Rule::Constant => b"constant",
            Rule::TypeRule => b"type",
            Rule::Underlying => b"underlying",
            Rule::Fields => b"fields",
            Rule::Selectable => b"selectable",
            Rule::Comparable => b"comparable",
            Rule::InterfaceMethods => b"interface-methods",
            Rule::MethodSet => b"method-set",
            Rule::Implements => b"implements",
            Rule::OneToOne => b"one-to-one",
        }
    }
}
