//! Types and their parts in the making.
ghost use Rattle.std.specs.Prelude.{◌≡◌, ◌++◌, ◌∷◌, [], IfOk, OnErr, OnOk, length, slice_get};
ghost use Rattle.go_syntax.specs.declared.types.«Type».TheVariants.{Array, Map};

use crate::expression::Expr;
use crate::held::whole::Whole;
use crate::types::{FieldDecl, InterfaceElem, ParameterDecl, Signature, Type};
use go_base::boxed::Box;
use go_base::list::List;
use go_base::memory::NoMemory;
use std::alloc::Global;
use std::marker::Model;

/// A type in the making.
pub struct HeldType {
    tree: Whole<Type>,
}

impl Drop for HeldType {
    fn drop(self) {
        let HeldType { tree: _ } = self;
    }
}

impl Model for HeldType {
    ghost use Rattle.go_syntax.specs.declared.types.«Type».{«Type»};
    ghost use Rattle.go_syntax.specs.contracts.types.«Type» as t;
    ghost use Rattle.std.specs.Coded.{codes};

    ghost Value = { «Type» };

    ghost coded = { Prim.hlevel (codes, t.the_row.coded) };

    ghost view = { λ h. h.tree };
}

impl HeldType {
    /// Holds this tree.
    pub fn new(tree: Type) -> HeldType
        ensures { result ≡ tree }
    {
        HeldType {
            tree: Whole::new(tree),
        }
    }

    /// The tree, moved out.
    pub fn take(self) -> Type
        ensures { result ≡ self }
    {
        let HeldType { tree } = self;
        tree.take()
    }
}

/// Types in the making, as those of a clause.
pub struct HeldTypes {
    trees: List<Type>,
}

impl Drop for HeldTypes {
    fn drop(self) {
        let HeldTypes { trees: _ } = self;
    }
}

impl Model for HeldTypes {
    ghost use Rattle.go_syntax.specs.declared.types.«Type».{«Type»};
    ghost use Rattle.go_syntax.specs.contracts.types.«Type» as t;
    ghost use Rattle.std.specs.Coded.{codes, coded_list};
    ghost use Rattle.std.specs.Prelude.{List as Sequence};

    ghost Value = { Sequence «Type» };

    ghost coded = { coded_list (Prim.hlevel (codes, t.the_row.coded)) };

    ghost view = { λ h. h.trees };
}

impl HeldTypes {
    /// No tree.
    pub fn new(alloc: Global) -> HeldTypes
        ensures { result ≡ [] }
    {
        HeldTypes {
            trees: List::new(alloc),
        }
    }

    /// How many trees there are.
    pub fn len(&self) -> usize
        ensures { result ≡ length self.now }
    {
        self.trees.items().len()
    }

    /// Appends a tree. One that found no room is given up.
    pub fn push(&mut self, tree: Type) -> Result<(), NoMemory>
        ensures ok { OnOk result (self.new ≡ self.old ++ tree ∷ []) }
        ensures err { OnErr result (self.new ≡ self.old) }
    {
        self.trees.push(tree)
    }

    /// The trees, moved out.
    pub fn take(self) -> List<Type>
        ensures { result ≡ self }
    {
        let HeldTypes { trees } = self;
        trees
    }
}

/// Parameters and a result in the making.
pub struct HeldSignature {
    tree: Whole<Signature>,
}

impl Drop for HeldSignature {
    fn drop(self) {
        let HeldSignature { tree: _ } = self;
    }
}

impl Model for HeldSignature {
    ghost use Rattle.go_syntax.specs.declared.types.Signature.{Signature};
    ghost use Rattle.go_syntax.specs.contracts.types.Signature as t;
    ghost use Rattle.std.specs.Coded.{codes};

    ghost Value = { Signature };

    ghost coded = { Prim.hlevel (codes, t.the_row.coded) };

    ghost view = { λ h. h.tree };
}

impl HeldSignature {
    /// Holds this tree.
    pub fn new(tree: Signature) -> HeldSignature
        ensures { result ≡ tree }
    {
        HeldSignature {
            tree: Whole::new(tree),
        }
    }

    /// The tree, moved out.
    pub fn take(self) -> Signature
        ensures { result ≡ self }
    {
        let HeldSignature { tree } = self;
        tree.take()
    }
}

/// Parameters in the making.
pub struct HeldParameters {
    trees: List<ParameterDecl>,
}

impl Drop for HeldParameters {
    fn drop(self) {
        let HeldParameters { trees: _ } = self;
    }
}

impl Model for HeldParameters {
    ghost use Rattle.go_syntax.specs.declared.types.ParameterDecl.{ParameterDecl};
    ghost use Rattle.go_syntax.specs.contracts.types.ParameterDecl as t;
    ghost use Rattle.std.specs.Coded.{codes, coded_list};
    ghost use Rattle.std.specs.Prelude.{List as Sequence};

    ghost Value = { Sequence ParameterDecl };

    ghost coded = { coded_list (Prim.hlevel (codes, t.the_row.coded)) };

    ghost view = { λ h. h.trees };
}

impl HeldParameters {
    /// No tree.
    pub fn new(alloc: Global) -> HeldParameters
        ensures { result ≡ [] }
    {
        HeldParameters {
            trees: List::new(alloc),
        }
    }

    /// How many trees there are.
    pub fn len(&self) -> usize
        ensures { result ≡ length self.now }
    {
        self.trees.items().len()
    }

    /// The trees.
    pub fn items(&self) -> &[ParameterDecl]
        ensures { result.now ≡ self.now }
    {
        self.trees.items()
    }

    /// The first tree, moved out. The others are given up.
    pub fn first(self) -> Option<ParameterDecl>
        ensures { result ≡ slice_get self 0 }
    {
        let HeldParameters { trees } = self;
        trees.into_vec().into_iter().next()
    }

    /// Appends a tree. One that found no room is given up.
    pub fn push(&mut self, tree: ParameterDecl) -> Result<(), NoMemory>
        ensures ok { OnOk result (self.new ≡ self.old ++ tree ∷ []) }
        ensures err { OnErr result (self.new ≡ self.old) }
    {
        self.trees.push(tree)
    }

    /// The trees, moved out.
    pub fn take(self) -> List<ParameterDecl>
        ensures { result ≡ self }
    {
        let HeldParameters { trees } = self;
        trees
    }
}

/// A receiver in the making, where there is one.
pub struct HeldReceiver {
    tree: Whole<Option<ParameterDecl>>,
}

impl Drop for HeldReceiver {
    fn drop(self) {
        let HeldReceiver { tree: _ } = self;
    }
}

impl Model for HeldReceiver {
    ghost use Rattle.go_syntax.specs.declared.types.ParameterDecl.{ParameterDecl};
    ghost use Rattle.go_syntax.specs.contracts.types.ParameterDecl as t;
    ghost use Rattle.std.specs.Coded.{codes, coded_option};
    ghost use Rattle.std.specs.Prelude.{Option};

    ghost Value = { Option ParameterDecl };

    ghost coded = { coded_option (Prim.hlevel (codes, t.the_row.coded)) };

    ghost view = { λ h. h.tree };
}

impl HeldReceiver {
    /// Holds this tree.
    pub fn new(tree: Option<ParameterDecl>) -> HeldReceiver
        ensures { result ≡ tree }
    {
        HeldReceiver {
            tree: Whole::new(tree),
        }
    }

    /// The tree, moved out.
    pub fn take(self) -> Option<ParameterDecl>
        ensures { result ≡ self }
    {
        let HeldReceiver { tree } = self;
        tree.take()
    }
}

/// Field declarations in the making.
pub struct HeldFields {
    trees: List<FieldDecl>,
}

impl Drop for HeldFields {
    fn drop(self) {
        let HeldFields { trees: _ } = self;
    }
}

impl Model for HeldFields {
    ghost use Rattle.go_syntax.specs.declared.types.FieldDecl.{FieldDecl};
    ghost use Rattle.go_syntax.specs.contracts.types.FieldDecl as t;
    ghost use Rattle.std.specs.Coded.{codes, coded_list};
    ghost use Rattle.std.specs.Prelude.{List as Sequence};

    ghost Value = { Sequence FieldDecl };

    ghost coded = { coded_list (Prim.hlevel (codes, t.the_row.coded)) };

    ghost view = { λ h. h.trees };
}

impl HeldFields {
    /// No tree.
    pub fn new(alloc: Global) -> HeldFields
        ensures { result ≡ [] }
    {
        HeldFields {
            trees: List::new(alloc),
        }
    }

    /// How many trees there are.
    pub fn len(&self) -> usize
        ensures { result ≡ length self.now }
    {
        self.trees.items().len()
    }

    /// Appends a tree. One that found no room is given up.
    pub fn push(&mut self, tree: FieldDecl) -> Result<(), NoMemory>
        ensures ok { OnOk result (self.new ≡ self.old ++ tree ∷ []) }
        ensures err { OnErr result (self.new ≡ self.old) }
    {
        self.trees.push(tree)
    }

    /// The trees, moved out.
    pub fn take(self) -> List<FieldDecl>
        ensures { result ≡ self }
    {
        let HeldFields { trees } = self;
        trees
    }
}

/// Elements of an interface type in the making.
pub struct HeldInterfaceElems {
    trees: List<InterfaceElem>,
}

impl Drop for HeldInterfaceElems {
    fn drop(self) {
        let HeldInterfaceElems { trees: _ } = self;
    }
}

impl Model for HeldInterfaceElems {
    ghost use Rattle.go_syntax.specs.declared.types.InterfaceElem.{InterfaceElem};
    ghost use Rattle.go_syntax.specs.contracts.types.InterfaceElem as t;
    ghost use Rattle.std.specs.Coded.{codes, coded_list};
    ghost use Rattle.std.specs.Prelude.{List as Sequence};

    ghost Value = { Sequence InterfaceElem };

    ghost coded = { coded_list (Prim.hlevel (codes, t.the_row.coded)) };

    ghost view = { λ h. h.trees };
}

impl HeldInterfaceElems {
    /// No tree.
    pub fn new(alloc: Global) -> HeldInterfaceElems
        ensures { result ≡ [] }
    {
        HeldInterfaceElems {
            trees: List::new(alloc),
        }
    }

    /// How many trees there are.
    pub fn len(&self) -> usize
        ensures { result ≡ length self.now }
    {
        self.trees.items().len()
    }

    /// Appends a tree. One that found no room is given up.
    pub fn push(&mut self, tree: InterfaceElem) -> Result<(), NoMemory>
        ensures ok { OnOk result (self.new ≡ self.old ++ tree ∷ []) }
        ensures err { OnErr result (self.new ≡ self.old) }
    {
        self.trees.push(tree)
    }

    /// The trees, moved out.
    pub fn take(self) -> List<InterfaceElem>
        ensures { result ≡ self }
    {
        let HeldInterfaceElems { trees } = self;
        trees
    }
}

/// A box of a type. One that found no room is given up.
pub fn boxed_type(alloc: Global, tree: Type) -> Result<Box<Type>, NoMemory>
    ensures { IfOk result (λ b. b ≡ tree) }
{
    Box::new(alloc, tree)
}

/// A box of parameters and a result. One that found no room is given up.
pub fn boxed_signature(alloc: Global, tree: Signature) -> Result<Box<Signature>, NoMemory>
    ensures { IfOk result (λ b. b ≡ tree) }
{
    Box::new(alloc, tree)
}

/// An array type of this length and element type, which are given up where memory is wanting.
pub fn array_type(alloc: Global, len: Expr, element: Type) -> Result<Type, NoMemory>
    ensures { IfOk result (λ t. t ≡ Array len element) }
{
    let len = Box::new(alloc, len)?;
    let element = Box::new(alloc, element)?;
    Ok(Type::Array(len, element))
}

/// A map type of this key and element type, which are given up where memory is wanting.
pub fn map_type(alloc: Global, key: Type, element: Type) -> Result<Type, NoMemory>
    ensures { IfOk result (λ t. t ≡ Map key element) }
{
    let key = Box::new(alloc, key)?;
    let element = Box::new(alloc, element)?;
    Ok(Type::Map(key, element))
}
