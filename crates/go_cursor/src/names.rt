//! Names, names of types and tags.
ghost use Rattle.std.specs.Prelude.{◌≡◌, List};
ghost use Rattle.go_syntax.specs.declared.name.Name.{Name};
ghost use Rattle.go_syntax.specs.grammar.Terminals.{terminals};
ghost use Rattle.go_cursor.specs.Reading.{run, step_of};
ghost use Rattle.go_cursor.specs.Reads.{Reads};
ghost use Rattle.go_cursor.specs.Names as name_rules;

use crate::cursor::Cursor;
use crate::error::ParseError;
use go_syntax::go_base::list::List;
use go_syntax::go_base::text::Text;
use go_syntax::name::{Name, QualifiedName};
use go_syntax::token::TokenKind;
use std::alloc::Global;

/// More names, each after a comma.
fn more_names(
    alloc: Global,
    tokens: &mut Cursor<'_>,
    first: List<Name>,
) -> Result<List<Name>, ParseError>
    ensures { Reads (run (step_of name_rules.name_item) first (terminals tokens.old)) result tokens.new }
{
    let mut names = first;
    for _turn in 0..tokens.len() {
        if !tokens.begins(TokenKind::Comma) {
            return Ok(names);
        }
        tokens.advance();
        names.push(tokens.name(alloc)?)?;
    }
    Ok(names)
}

/// Names with commas between them.
#[tactic(auto, unfolding(crate::specs::Names::names))]
pub fn names(alloc: Global, tokens: &mut Cursor<'_>) -> Result<List<Name>, ParseError>
    ensures { Reads (name_rules.names (terminals tokens.old)) result tokens.new }
{
    let mut first = List::new(alloc);
    first.push(tokens.name(alloc)?)?;
    more_names(alloc, tokens, first)
}

/// The name of a type: the longest that begins here.
#[tactic(auto, unfolding(crate::specs::Names::type_name))]
pub fn type_name(alloc: Global, tokens: &mut Cursor<'_>) -> Result<QualifiedName, ParseError>
    ensures { Reads (name_rules.type_name (terminals tokens.old)) result tokens.new }
{
    let first = tokens.name(alloc)?;
    if !tokens.begins_selector() {
        return Ok(QualifiedName {
            qualifier: None,
            name: first,
        });
    }
    tokens.advance();
    let name = tokens.name(alloc)?;
    Ok(QualifiedName {
        qualifier: Some(first),
        name,
    })
}

/// The tag of a field, which may be missing.
#[tactic(auto, unfolding(crate::specs::Names::tag))]
pub fn tag(alloc: Global, tokens: &mut Cursor<'_>) -> Result<Option<Text>, ParseError>
    ensures { Reads (name_rules.tag (terminals tokens.old)) result tokens.new }
{
    match tokens.string(alloc)? {
        None => Ok(None),
        Some((text, _)) => {
            tokens.advance();
            Ok(Some(text))
        }
    }
}
