//! Values of fields by their names.
ghost use Rattle.std.specs.Prelude.{◌≡◌, ◌∷◌, [], IfOk};
ghost use Rattle.go_literals.specs.Elements.{EachKeyed, KeyedFits, NamedFits, Takes, parts_of};
ghost use Rattle.go_literals.specs.inner.FieldTables.{AreTabled, MayBeTabled};
ghost use Rattle.go_model.specs.declared.types.term.Field.{out-Field};
ghost use Rattle.go_rules.specs.Nodes.{element_parts, expression};
ghost use Rattle.go_rules.specs.Usability.{UsableAs};
ghost use Rattle.go_selectors.specs.Answers.{Decides};
ghost use Rattle.go_operations.specs.go_type_terms.Answers.{Holds, TypesBelow, env_in};

use crate::field_tables::{known, table_for};
use crate::keys::{expr_alone, field_key};
use crate::values::Literals;
use go_base::memory::NoMemory;
use go_elements::go_usability::context::Context;
use go_elements::go_usability::usable::usable;
use go_model::types::names::Sel;
use go_model::types::term::Field;
use go_operations::go_type_terms::error::ExprError;
use go_operations::go_type_terms::loud::either;
use go_operations::go_type_terms::part::{Answer, Part};
use go_rules::blank::is_blank;
use go_rules::operand::Operand;
use go_selectors::identity::same_sel;
use go_syntax::expression::{Element, Expr};
use go_syntax::name::Name;
use std::alloc::Global;
use std::collections::BTreeMap;

// Whether a field has the selector, and takes the operand.
fn takes_here(
    context: &Context<'_>,
    alloc: Global,
    field: &Field,
    sel: &Sel,
    operand: &Operand,
) -> Result<bool, NoMemory>
    ensures { IfOk result (λ answer. Decides answer (((out-Field field.now).sel ≡ sel.now) × UsableAs (env_in context.now) operand.now (out-Field field.now).term)) }
{
    if !same_sel(&field.sel, sel) {
        return Ok(false);
    }
    usable(context, alloc, operand, &field.term)
}

// Whether a field with the selector takes the operand.
fn takes(
    context: &Context<'_>,
    alloc: Global,
    fields: &[Field],
    sel: &Sel,
    operand: &Operand,
) -> Result<bool, NoMemory>
    ensures { IfOk result (λ answer. Decides answer (Takes (env_in context.now) fields.now sel.now operand.now)) }
{
    for field in fields {
        if takes_here(context, alloc, field, sel, operand)? {
            return Ok(true);
        }
    }
    Ok(false)
}

// The same over a table of the fields. Where the first field with the selector doesn't take the operand, another one has to be sought.
fn takes_tabled<'f>(
    context: &Context<'_>,
    alloc: Global,
    fields: &'f [Field],
    table: &BTreeMap<Sel, &'f Field>,
    sel: &Sel,
    operand: &Operand,
) -> Result<bool, NoMemory>
    requires { AreTabled fields.now table.now }
    ensures { IfOk result (λ answer. Decides answer (Takes (env_in context.now) fields.now sel.now operand.now)) }
{
    let field = match known(table, sel) {
        Some(field) => field,
        None => return Ok(false),
    };
    if takes_here(context, alloc, field, sel, operand)? {
        return Ok(true);
    }
    takes(context, alloc, fields, sel, operand)
}

// The same by a table, where there is one.
fn takes_by<'f>(
    context: &Context<'_>,
    alloc: Global,
    fields: &'f [Field],
    table: &Option<BTreeMap<Sel, &'f Field>>,
    sel: &Sel,
    operand: &Operand,
) -> Result<bool, NoMemory>
    requires { MayBeTabled fields.now table.now }
    ensures { IfOk result (λ answer. Decides answer (Takes (env_in context.now) fields.now sel.now operand.now)) }
{
    match table {
        Some(table) => takes_tabled(context, alloc, fields, table, sel, operand),
        None => takes(context, alloc, fields, sel, operand),
    }
}

impl<'a, F: Fn(&Context<'_>, Global, usize, Part<'_>) -> Result<Answer, ExprError>> Literals<
    'a,
    F,
> {
    // Whether a field of the name takes the expression.
    fn named_fits<'f>(
        &self,
        fields: &'f [Field],
        table: &Option<BTreeMap<Sel, &'f Field>>,
        name: &Name,
        expr: &Expr,
    ) -> Result<bool, ExprError>
        requires tabled { MayBeTabled fields.now table.now }
        requires below { TypesBelow self.now.operations.typing.context.now self.now.operations.typing.height (F.pre self.now.operations.typing.below) (F.post self.now.operations.typing.below) }
        ensures { Holds (env_in self.now.operations.typing.context.now) (NamedFits (env_in self.now.operations.typing.context.now) fields.now name.now expr.now) (expression expr.now ∷ []) result }
    {
        if is_blank(name.text.bytes()) {
            return Err(ExprError::Untyped);
        }
        let sel = self
            .operations
            .typing
            .context
            .env
            .selector(name.text.bytes())?;
        let (operand, loud) = self.operations.typing.expr_below(expr)?;
        if !takes_by(
            self.operations.typing.context,
            self.operations.typing.alloc,
            fields,
            table,
            &sel,
            &operand,
        )? {
            return Err(ExprError::Untyped);
        }
        Ok(loud)
    }

    // Whether an element is a value of the field that its key names.
    fn keyed_fits<'f>(
        &self,
        fields: &'f [Field],
        table: &Option<BTreeMap<Sel, &'f Field>>,
        element: &Element,
    ) -> Result<bool, ExprError>
        requires tabled { MayBeTabled fields.now table.now }
        requires below { TypesBelow self.now.operations.typing.context.now self.now.operations.typing.height (F.pre self.now.operations.typing.below) (F.post self.now.operations.typing.below) }
        ensures { Holds (env_in self.now.operations.typing.context.now) (KeyedFits (env_in self.now.operations.typing.context.now) fields.now element.now) (parts_of element.now) result }
    {
        let name = match field_key(element) {
            Some(name) => name,
            None => return Err(ExprError::Untyped),
        };
        let expr = match expr_alone(&element.value) {
            Some(expr) => expr,
            None => return Err(ExprError::Untyped),
        };
        self.named_fits(fields, table, name, expr)
    }

    // The same for each element.
    fn each_keyed<'f>(
        &self,
        fields: &'f [Field],
        table: &Option<BTreeMap<Sel, &'f Field>>,
        elements: &[Element],
    ) -> Result<bool, ExprError>
        requires tabled { MayBeTabled fields.now table.now }
        requires below { TypesBelow self.now.operations.typing.context.now self.now.operations.typing.height (F.pre self.now.operations.typing.below) (F.post self.now.operations.typing.below) }
        ensures { Holds (env_in self.now.operations.typing.context.now) (EachKeyed (env_in self.now.operations.typing.context.now) fields.now elements.now) (element_parts elements.now) result }
    {
        let mut loud = false;
        for element in elements {
            let louder = self.keyed_fits(fields, table, element)?;
            loud = either(loud, louder);
        }
        Ok(loud)
    }

    /// Whether each element is a value of the field that its key names.
    pub(crate) fn keyed(&self, fields: &[Field], elements: &[Element]) -> Result<bool, ExprError>
        requires { TypesBelow self.now.operations.typing.context.now self.now.operations.typing.height (F.pre self.now.operations.typing.below) (F.post self.now.operations.typing.below) }
        ensures { Holds (env_in self.now.operations.typing.context.now) (EachKeyed (env_in self.now.operations.typing.context.now) fields.now elements.now) (element_parts elements.now) result }
    {
        let table = table_for(self.operations.typing.alloc, fields, elements)?;
        self.each_keyed(fields, &table, elements)
    }
}
