//! Import declarations.
ghost use Rattle.std.specs.Prelude.{◌≡◌, ◌++◌, IfOk};
ghost use Rattle.go_syntax.specs.declared.token.TokenKind.TheVariants as kind;
ghost use Rattle.go_syntax.specs.grammar.Terminals.{terminals};
ghost use Rattle.go_parse.specs.Declarations as rules;
ghost use Rattle.go_cursor.specs.Reading.{bind, close};
ghost use Rattle.go_cursor.specs.Reads.{Reads, ReadsNext};

use go_base::list::List;
use go_base::memory::NoMemory;
use go_cursor::cursor::Cursor;
use go_cursor::error::ParseError;
use go_syntax::declaration::ImportSpec;
use go_syntax::name::Name;
use go_syntax::token::TokenKind;
use std::alloc::Global;

/// The path of an import, after this name.
#[tactic(auto, unfolding(crate::specs::Declarations::import_path))]
fn import_path(
    alloc: Global,
    tokens: &mut Cursor<'_>,
    name: Option<Name>,
) -> Result<ImportSpec, ParseError>
    ensures { Reads (rules.import_path name (terminals tokens.old)) result tokens.new }
{
    match tokens.string(alloc)? {
        None => Err(ParseError::Syntax),
        Some((path, place)) => {
            tokens.advance();
            Ok(ImportSpec { name, path, place })
        }
    }
}

/// An import.
#[tactic(auto, unfolding(crate::specs::Declarations::import_spec))]
fn import_spec(alloc: Global, tokens: &mut Cursor<'_>) -> Result<ImportSpec, ParseError>
    ensures { Reads (rules.import_spec (terminals tokens.old)) result tokens.new }
{
    if !tokens.begins_name() {
        return import_path(alloc, tokens, None);
    }
    let name = tokens.name(alloc)?;
    import_path(alloc, tokens, Some(name))
}

/// The imports up to the closing bracket.
fn import_specs(alloc: Global, tokens: &mut Cursor<'_>) -> Result<List<ImportSpec>, ParseError>
    ensures { Reads (rules.specs rules.import_spec (terminals tokens.old)) result tokens.new }
{
    let mut specs = List::new(alloc);
    for _turn in 0..tokens.len() {
        if tokens.closes() {
            return Ok(specs);
        }
        specs.push(import_spec(alloc, tokens)?)?;
        tokens.ended()?;
    }
    Ok(specs)
}

/// An import, or imports in brackets.
#[tactic(auto, unfolding(crate::specs::Declarations::group, go_cursor::specs::Reading::close, go_cursor::specs::Reading::expect))]
fn import_group(alloc: Global, tokens: &mut Cursor<'_>) -> Result<List<ImportSpec>, ParseError>
    ensures { Reads (rules.group rules.import_spec (terminals tokens.old)) result tokens.new }
{
    if tokens.begins(TokenKind::LeftParen) {
        tokens.advance();
        let specs = import_specs(alloc, tokens)?;
        tokens.expect(TokenKind::RightParen)?;
        return Ok(specs);
    }
    let mut specs = List::new(alloc);
    specs.push(import_spec(alloc, tokens)?)?;
    Ok(specs)
}

/// An import declaration, from behind `import` on, and the semicolon after it.
#[tactic(auto, unfolding(go_cursor::specs::Reading::close, go_cursor::specs::Reading::expect))]
fn import_decl(alloc: Global, tokens: &mut Cursor<'_>) -> Result<List<ImportSpec>, ParseError>
    ensures { Reads (bind (rules.group rules.import_spec (terminals tokens.old)) (λ xs. close kind.Semicolon xs)) result tokens.new }
{
    let specs = import_group(alloc, tokens)?;
    tokens.expect(TokenKind::Semicolon)?;
    Ok(specs)
}

/// These imports, and then more.
fn append(imports: List<ImportSpec>, more: List<ImportSpec>) -> Result<List<ImportSpec>, NoMemory>
    ensures { IfOk result (λ all. all ≡ imports ++ more) }
{
    let mut all = imports.into_vec();
    let mut added = more.into_vec();
    all.append(&mut added)?;
    Ok(List::from_vec(all))
}

/// An import declaration and the semicolon after it, if one begins here.
#[tactic(auto, unfolding(crate::specs::Declarations::import_item))]
fn import_item(
    alloc: Global,
    tokens: &mut Cursor<'_>,
) -> Result<Option<List<ImportSpec>>, ParseError>
    ensures { ReadsNext (rules.import_item (terminals tokens.old)) (terminals tokens.old) result tokens.new }
{
    if !tokens.begins(TokenKind::ImportWord) {
        return Ok(None);
    }
    tokens.advance();
    Ok(Some(import_decl(alloc, tokens)?))
}

/// The import declarations from here on.
pub fn imports(alloc: Global, tokens: &mut Cursor<'_>) -> Result<List<ImportSpec>, ParseError>
    ensures { Reads (rules.imports (terminals tokens.old)) result tokens.new }
{
    let mut imports = List::new(alloc);
    for _turn in 0..tokens.len() {
        match import_item(alloc, tokens)? {
            None => return Ok(imports),
            Some(more) => imports = append(imports, more)?,
        }
    }
    Ok(imports)
}
