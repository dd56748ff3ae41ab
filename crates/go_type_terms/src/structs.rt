//! Fields of struct types.
ghost use Rattle.std.specs.Prelude.{◌≡◌, ◌∷◌, [], map, true, false, IfOk};
ghost use Rattle.go_rules.specs.Expressions.{OfFields, OfForm, field_of, starred, tag_of};
ghost use Rattle.go_rules.specs.Nodes.{field_parts, fields_parts, type as type_node};
ghost use Rattle.go_rules.specs.Scopes.{env_of};
ghost use Rattle.go_syntax.specs.declared.types.FieldDecl.{FieldDecl-F, out-FieldDecl};
ghost use Rattle.go_syntax.specs.declared.types.«Type».{«Type-F» as Typ-F};
ghost use Rattle.go_type_terms.specs.Answers.{Tells, Types, TypesBelow, env_in};
ghost use Rattle.go_type_terms.specs.Members.{OfField};

use crate::error::ExprError;
use crate::lists::push_all;
use crate::loud::either;
use crate::part::{Answer, Part};
use crate::type_names::type_named;
use crate::typing::Typing;
use go_base::list::List;
use go_base::memory::NoMemory;
use go_base::shared::Shared;
use go_base::text::Text;
use go_model::types::term::{Field, Term};
use go_rules::env::Env;
use go_syntax::name::{Name, QualifiedName};
use go_syntax::types::{FieldDecl, Type};
use go_usability::context::Context;
use std::alloc::Global;

// A tag; an empty one where there is none.
fn tag_of(alloc: Global, tag: &Option<Text>) -> Result<Text, NoMemory>
    ensures { IfOk result (λ text. text ≡ tag_of tag.now) }
{
    match tag {
        Some(text) => text.copy(),
        None => Text::of(alloc, b""),
    }
}

// The type, or the pointer type where a star stands before it.
fn starred(alloc: Global, star: bool, term: Term) -> Result<Term, NoMemory>
    ensures { IfOk result (λ t. t ≡ starred star term) }
{
    if star {
        Ok(Term::Pointer(Shared::new(alloc, term)?))
    } else {
        Ok(term)
    }
}

// The field of a name and a type.
fn field(
    env: &Env<'_>,
    alloc: Global,
    embedded: bool,
    term: Term,
    tag: &Option<Text>,
    name: &Name,
) -> Result<Field, NoMemory>
    ensures { IfOk result (λ f. f ≡ field_of (env_of env.now) embedded term tag.now name.now) }
{
    Ok(Field {
        sel: env.selector(name.text.bytes())?,
        embedded,
        term,
        tag: tag_of(alloc, tag)?,
    })
}

// A field of the type for each name.
fn fields_named(
    env: &Env<'_>,
    alloc: Global,
    term: &Term,
    tag: &Option<Text>,
    names: &[Name],
) -> Result<List<Field>, NoMemory>
    ensures { IfOk result (λ fs. fs ≡ map (field_of (env_of env.now) false term.now tag.now) names.now) }
{
    let mut fields = List::new(alloc);
    for name in names {
        let copied = term.copy(alloc)?;
        let more = field(env, alloc, false, copied, tag, name)?;
        fields.push(more)?;
    }
    Ok(fields)
}

// The field of a type's name.
fn embedded_list(
    env: &Env<'_>,
    alloc: Global,
    star: bool,
    term: Term,
    tag: &Option<Text>,
    name: &Name,
) -> Result<List<Field>, NoMemory>
    ensures { IfOk result (λ fs. fs ≡ field_of (env_of env.now) true (starred star term) tag.now name.now ∷ []) }
{
    let term = starred(alloc, star, term)?;
    let field = field(env, alloc, true, term, tag, name)?;
    let mut fields = List::new(alloc);
    fields.push(field)?;
    Ok(fields)
}

// The field that an embedded type declares.
fn embedded_field(
    context: &Context<'_>,
    alloc: Global,
    star: bool,
    name: &QualifiedName,
    tag: &Option<Text>,
) -> Result<List<Field>, ExprError>
    ensures { Tells (OfField (env_in context.now) (FieldDecl-F.«FieldDecl::Embedded» star name.now tag.now)) result }
{
    let term = type_named(context, alloc, name)?;
    let fields = embedded_list(context.env, alloc, star, term, tag, &name.name)?;
    Ok(fields)
}

impl<'a, F: Fn(&Context<'_>, Global, usize, Part<'_>) -> Result<Answer, ExprError>> Typing<'a, F> {
    // The fields that a declaration with names declares.
    fn named_fields(
        &self,
        names: &[Name],
        form: &Type,
        tag: &Option<Text>,
    ) -> Result<(List<Field>, bool), ExprError>
        requires { TypesBelow self.now.context.now self.now.height (F.pre self.now.below) (F.post self.now.below) }
        ensures { Types (env_in self.now.context.now) (OfField (env_in self.now.context.now) (FieldDecl-F.«FieldDecl::Named» names.now form.now tag.now)) (type_node form.now ∷ []) result }
    {
        let (term, loud) = self.type_below(form)?;
        let fields = fields_named(self.context.env, self.alloc, &term, tag, names)?;
        Ok((fields, loud))
    }

    // The fields that a declaration declares.
    fn declared_fields(&self, decl: &FieldDecl) -> Result<(List<Field>, bool), ExprError>
        requires { TypesBelow self.now.context.now self.now.height (F.pre self.now.below) (F.post self.now.below) }
        ensures { Types (env_in self.now.context.now) (OfField (env_in self.now.context.now) (out-FieldDecl decl.now)) (field_parts (out-FieldDecl decl.now)) result }
    {
        match decl {
            FieldDecl::Named(names, form, tag) => self.named_fields(names.items(), form, tag),
            FieldDecl::Embedded(star, name, tag) => {
                let fields = embedded_field(self.context, self.alloc, *star, name, tag)?;
                Ok((fields, false))
            }
        }
    }

    // The fields that field declarations declare.
    fn fields(&self, decls: &[FieldDecl]) -> Result<(List<Field>, bool), ExprError>
        requires { TypesBelow self.now.context.now self.now.height (F.pre self.now.below) (F.post self.now.below) }
        ensures { Types (env_in self.now.context.now) (OfFields (env_in self.now.context.now) decls.now) (fields_parts decls.now) result }
    {
        let mut fields = List::new(self.alloc);
        let mut loud = false;
        for decl in decls {
            let (more, louder) = self.declared_fields(decl)?;
            push_all(&mut fields, more)?;
            loud = either(loud, louder);
        }
        Ok((fields, loud))
    }

    // The same, to be shared.
    fn shared_fields(&self, decls: &[FieldDecl]) -> Result<(Shared<List<Field>>, bool), ExprError>
        requires { TypesBelow self.now.context.now self.now.height (F.pre self.now.below) (F.post self.now.below) }
        ensures { Types (env_in self.now.context.now) (OfFields (env_in self.now.context.now) decls.now) (fields_parts decls.now) result }
    {
        let (fields, loud) = self.fields(decls)?;
        Ok((Shared::new(self.alloc, fields)?, loud))
    }

    /// The struct type of field declarations.
    pub(crate) fn structure(&self, decls: &[FieldDecl]) -> Result<(Term, bool), ExprError>
        requires { TypesBelow self.now.context.now self.now.height (F.pre self.now.below) (F.post self.now.below) }
        ensures { Types (env_in self.now.context.now) (OfForm (env_in self.now.context.now) (Typ-F.Struct decls.now)) (fields_parts decls.now) result }
    {
        let (fields, loud) = self.shared_fields(decls)?;
        Ok((Term::Struct(fields), loud))
    }
}
