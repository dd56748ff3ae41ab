//! The types, values and signatures of a declaration.
ghost use Rattle.std.specs.Prelude.{◌≡◌, ◌++◌, IfOk, OnOk};
ghost use Rattle.go_base.specs.Keys.{item_of};
ghost use Rattle.go_declarations.specs.Forms.{form_of};
ghost use Rattle.go_nodes.specs.Trees.{nodes_in};
ghost use Rattle.go_rules.specs.Nodes.{optional, type as type_node};
ghost use Rattle.go_declarations.specs.go_typings.DeclarationNodes.{nodes};

use crate::tree::Tree;
use crate::trees::Trees;
use go_base::memory::NoMemory;
use go_declarations::form::Form;
use go_syntax::types::Type;
use std::alloc::Global;

fn push_type<'a>(trees: &mut Trees<'a>, form: Option<&'a Type>) -> Result<(), NoMemory>
    ensures { OnOk result (nodes_in trees.new ≡ nodes_in trees.old ++ optional type_node (item_of form.entry)) }
{
    match form {
        Some(form) => trees.push(Tree::Type(form)),
        None => Ok(()),
    }
}

fn push_form<'a>(trees: &mut Trees<'a>, form: Form<'a>) -> Result<(), NoMemory>
    ensures { OnOk result (nodes_in trees.new ≡ nodes_in trees.old ++ nodes (form_of form.entry)) }
{
    match form {
        Form::Constants(spec) => {
            push_type(trees, spec.type_)?;
            trees.push_exprs(spec.values)
        }
        Form::Variables(spec) => {
            push_type(trees, spec.type_.as_ref())?;
            trees.push_exprs(spec.values.items())
        }
        Form::Alias(spec) => trees.push(Tree::Type(&spec.type_)),
        Form::Definition(spec) => trees.push(Tree::Type(&spec.type_)),
        Form::Function(func) => trees.push(Tree::Signature(&func.signature)),
        Form::Method(receiver, func) => {
            trees.push(Tree::Type(&receiver.type_))?;
            trees.push(Tree::Signature(&func.signature))
        }
    }
}

/// The types, values and signatures of a declaration.
pub fn trees_of<'a>(alloc: Global, form: Form<'a>) -> Result<Trees<'a>, NoMemory>
    ensures { IfOk result (λ trees. nodes_in trees ≡ nodes (form_of form.entry)) }
{
    let mut trees = Trees::new(alloc);
    push_form(&mut trees, form)?;
    Ok(trees)
}
