//! Trees in turn, and the parts of a tree, outside of the bodies of function literals.
ghost use Rattle.std.specs.Prelude.{◌≡◌, ◌++◌, ◌∷◌, [], map, OnOk};
ghost use Rattle.go_nodes.specs.Trees.{Pops, node_of, nodes_in};
ghost use Rattle.go_rules.specs.Nodes.{element_parts, elem_parts, elems_parts, expression, expression_parts, field_parts, fields_parts, optional, optional_result_parts, parameter_parts, parts, post, post_parts, type_parts, value, value_parts};
ghost use Rattle.go_syntax.specs.declared.expression.ElementValue.{out-ElementValue};
ghost use Rattle.go_syntax.specs.declared.expression.Expr.{out-Expr};
ghost use Rattle.go_syntax.specs.declared.expression.Post.{out-Post};
ghost use Rattle.go_syntax.specs.declared.types.FieldDecl.{out-FieldDecl};
ghost use Rattle.go_syntax.specs.declared.types.InterfaceElem.{out-InterfaceElem};
ghost use Rattle.go_syntax.specs.declared.types.«Type».{«out-Type» as out-Typ};

use crate::tree::Tree;
use go_base::boxed::Box;
use go_base::memory::NoMemory;
use go_syntax::expression::{Element, ElementValue, Expr, Post};
use go_syntax::types::{FieldDecl, FuncResult, InterfaceElem, ParameterDecl, Signature, Type};
use std::alloc::Global;

/// Trees, of which the last one is taken first.
#[derive(Drop)]
pub struct Trees<'a> {
    items: Vec<Tree<'a>>,
}

impl<'a> Trees<'a> {
    /// No tree.
    pub fn new(alloc: Global) -> Trees<'a>
        ensures { nodes_in result ≡ [] }
    {
        Trees {
            items: Vec::new(alloc),
        }
    }

    /// Adds a tree.
    pub fn push(&mut self, tree: Tree<'a>) -> Result<(), NoMemory>
        ensures { OnOk result (nodes_in self.new ≡ nodes_in self.old ++ node_of tree.entry ∷ []) }
    {
        self.items.push(tree)?;
        Ok(())
    }

    /// The trees, in order.
    pub fn items(&self) -> &[Tree<'a>]
        ensures { map node_of result.now ≡ nodes_in self.now }
    {
        &self.items
    }

    /// Takes the last tree; None where there is none.
    pub fn pop(&mut self) -> Option<Tree<'a>>
        ensures { Pops (nodes_in self.old) (nodes_in self.new) result }
    {
        self.items.pop()
    }
}

// Lists of trees.
impl<'a> Trees<'a> {
    /// Adds these expressions.
    pub(crate) fn push_exprs(&mut self, exprs: &'a [Expr]) -> Result<(), NoMemory>
        ensures { OnOk result (nodes_in self.new ≡ nodes_in self.old ++ map expression exprs.now) }
    {
        for expr in exprs {
            self.push(Tree::Expr(expr))?;
        }
        Ok(())
    }

    fn push_chain(&mut self, first: &'a Expr, others: &'a [Expr]) -> Result<(), NoMemory>
        ensures { OnOk result (nodes_in self.new ≡ nodes_in self.old ++ expression first.now ∷ map expression others.now) }
    {
        self.push(Tree::Expr(first))?;
        self.push_exprs(others)
    }

    fn push_optional(&mut self, expr: &'a Option<Box<Expr>>) -> Result<(), NoMemory>
        ensures { OnOk result (nodes_in self.new ≡ nodes_in self.old ++ optional expression expr.now) }
    {
        match expr {
            Some(expr) => self.push(Tree::Expr(expr.value())),
            None => Ok(()),
        }
    }

    fn push_posts(&mut self, posts: &'a [Post]) -> Result<(), NoMemory>
        ensures { OnOk result (nodes_in self.new ≡ nodes_in self.old ++ map post posts.now) }
    {
        for post in posts {
            self.push(Tree::Post(post))?;
        }
        Ok(())
    }

    fn push_key(&mut self, key: &'a Option<ElementValue>) -> Result<(), NoMemory>
        ensures { OnOk result (nodes_in self.new ≡ nodes_in self.old ++ optional value key.now) }
    {
        match key {
            Some(key) => self.push(Tree::Value(key)),
            None => Ok(()),
        }
    }

    fn push_element(&mut self, element: &'a Element) -> Result<(), NoMemory>
        ensures { OnOk result (nodes_in self.new ≡ nodes_in self.old ++ element_parts (element.now ∷ [])) }
    {
        self.push_key(&element.key)?;
        self.push(Tree::Value(&element.value))
    }

    fn push_elements(&mut self, elements: &'a [Element]) -> Result<(), NoMemory>
        ensures { OnOk result (nodes_in self.new ≡ nodes_in self.old ++ element_parts elements.now) }
    {
        for element in elements {
            self.push_element(element)?;
        }
        Ok(())
    }

    fn push_parameters(&mut self, decls: &'a [ParameterDecl]) -> Result<(), NoMemory>
        ensures { OnOk result (nodes_in self.new ≡ nodes_in self.old ++ parameter_parts decls.now) }
    {
        for decl in decls {
            self.push(Tree::Type(&decl.type_))?;
        }
        Ok(())
    }

    fn push_result(&mut self, returned: &'a Option<FuncResult>) -> Result<(), NoMemory>
        ensures { OnOk result (nodes_in self.new ≡ nodes_in self.old ++ optional_result_parts returned.now) }
    {
        match returned {
            Some(FuncResult::Parameters(decls)) => self.push_parameters(decls.items()),
            Some(FuncResult::Type(form)) => self.push(Tree::Type(form)),
            None => Ok(()),
        }
    }

    fn push_field(&mut self, decl: &'a FieldDecl) -> Result<(), NoMemory>
        ensures { OnOk result (nodes_in self.new ≡ nodes_in self.old ++ field_parts (out-FieldDecl decl.now)) }
    {
        match decl {
            FieldDecl::Named(_, form, _) => self.push(Tree::Type(form)),
            FieldDecl::Embedded(_, _, _) => Ok(()),
        }
    }

    fn push_fields(&mut self, decls: &'a [FieldDecl]) -> Result<(), NoMemory>
        ensures { OnOk result (nodes_in self.new ≡ nodes_in self.old ++ fields_parts decls.now) }
    {
        for decl in decls {
            self.push_field(decl)?;
        }
        Ok(())
    }

    fn push_interface_element(&mut self, element: &'a InterfaceElem) -> Result<(), NoMemory>
        ensures { OnOk result (nodes_in self.new ≡ nodes_in self.old ++ elem_parts (out-InterfaceElem element.now)) }
    {
        match element {
            InterfaceElem::Method(_, signature) => self.push(Tree::Signature(signature)),
            InterfaceElem::Embedded(_) => Ok(()),
        }
    }

    fn push_interface(&mut self, elements: &'a [InterfaceElem]) -> Result<(), NoMemory>
        ensures { OnOk result (nodes_in self.new ≡ nodes_in self.old ++ elems_parts elements.now) }
    {
        for element in elements {
            self.push_interface_element(element)?;
        }
        Ok(())
    }
}

// The parts of a tree.
impl<'a> Trees<'a> {
    fn push_literal_parts(
        &mut self,
        form: &'a Type,
        elements: &'a [Element],
    ) -> Result<(), NoMemory>
        ensures { OnOk result (nodes_in self.new ≡ nodes_in self.old ++ node_of (Tree.Type form.entry) ∷ element_parts elements.now) }
    {
        self.push(Tree::Type(form))?;
        self.push_elements(elements)
    }

    fn push_expr_parts(&mut self, expr: &'a Expr) -> Result<(), NoMemory>
        ensures { OnOk result (nodes_in self.new ≡ nodes_in self.old ++ expression_parts (out-Expr expr.now)) }
    {
        match expr {
            Expr::Or(first, others) => self.push_chain(first.value(), others.items()),
            Expr::And(first, others) => self.push_chain(first.value(), others.items()),
            Expr::Compare(first, _, others) => self.push_chain(first.value(), others.items()),
            Expr::Sum(first, _, others) => self.push_chain(first.value(), others.items()),
            Expr::Product(first, _, others) => self.push_chain(first.value(), others.items()),
            Expr::Prefix(_, operand) => self.push(Tree::Expr(operand.value())),
            Expr::Primary(operand, posts) => {
                self.push(Tree::Expr(operand.value()))?;
                self.push_posts(posts.items())
            }
            Expr::Literal(_) => Ok(()),
            Expr::Name(_) => Ok(()),
            Expr::FuncLit(signature, _) => self.push(Tree::Signature(signature.value())),
            Expr::Composite(form, elements) => {
                self.push_literal_parts(form.value(), elements.items())
            }
            Expr::CompositeArray(form, elements) => {
                self.push_literal_parts(form.value(), elements.items())
            }
            Expr::Type(form) => self.push(Tree::Type(form.value())),
            Expr::Paren(inner) => self.push(Tree::Expr(inner.value())),
            Expr::ParenReceiveChan(element) => self.push(Tree::Type(element.value())),
        }
    }

    fn push_post_parts(&mut self, post: &'a Post) -> Result<(), NoMemory>
        ensures { OnOk result (nodes_in self.new ≡ nodes_in self.old ++ post_parts (out-Post post.now)) }
    {
        match post {
            Post::Selector(_) => Ok(()),
            Post::TypeAssertion(form) => self.push(Tree::Type(form.value())),
            Post::Index(expr) => self.push(Tree::Expr(expr.value())),
            Post::Slice(low, high) => {
                self.push_optional(low)?;
                self.push_optional(high)
            }
            Post::FullSlice(low, high, bound) => {
                self.push_optional(low)?;
                self.push(Tree::Expr(high.value()))?;
                self.push(Tree::Expr(bound.value()))
            }
            Post::Call(exprs, _) => self.push_exprs(exprs.items()),
            Post::CallReceiveChan(element, exprs, _) => {
                self.push(Tree::Type(element.value()))?;
                self.push_exprs(exprs.items())
            }
        }
    }

    fn push_value_parts(&mut self, value: &'a ElementValue) -> Result<(), NoMemory>
        ensures { OnOk result (nodes_in self.new ≡ nodes_in self.old ++ value_parts (out-ElementValue value.now)) }
    {
        match value {
            ElementValue::Value(expr) => self.push(Tree::Expr(expr)),
            ElementValue::Literal(elements) => self.push_elements(elements.items()),
        }
    }

    fn push_type_parts(&mut self, form: &'a Type) -> Result<(), NoMemory>
        ensures { OnOk result (nodes_in self.new ≡ nodes_in self.old ++ type_parts (out-Typ form.now)) }
    {
        match form {
            Type::Named(_) => Ok(()),
            Type::Paren(inner) => self.push(Tree::Type(inner.value())),
            Type::Pointer(base) => self.push(Tree::Type(base.value())),
            Type::Slice(element) => self.push(Tree::Type(element.value())),
            Type::Array(length, element) => {
                self.push(Tree::Expr(length.value()))?;
                self.push(Tree::Type(element.value()))
            }
            Type::Map(key, element) => {
                self.push(Tree::Type(key.value()))?;
                self.push(Tree::Type(element.value()))
            }
            Type::Chan(element) => self.push(Tree::Type(element.value())),
            Type::SendChan(element) => self.push(Tree::Type(element.value())),
            Type::ReceiveChan(element) => self.push(Tree::Type(element.value())),
            Type::Func(signature) => self.push(Tree::Signature(signature.value())),
            Type::Struct(decls) => self.push_fields(decls.items()),
            Type::Interface(elements) => self.push_interface(elements.items()),
        }
    }

    /// Adds the parts of a tree.
    pub fn push_parts(&mut self, tree: Tree<'a>) -> Result<(), NoMemory>
        ensures { OnOk result (nodes_in self.new ≡ nodes_in self.old ++ parts (node_of tree.entry)) }
    {
        match tree {
            Tree::Expr(expr) => self.push_expr_parts(expr),
            Tree::Post(post) => self.push_post_parts(post),
            Tree::Value(value) => self.push_value_parts(value),
            Tree::Type(form) => self.push_type_parts(form),
            Tree::Signature(signature) => {
                self.push_parameters(signature.parameters.items())?;
                self.push_result(&signature.result)
            }
        }
    }
}
