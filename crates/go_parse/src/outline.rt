//! The outline of a file.
ghost use Rattle.std.specs.Prelude.{◌≡◌, ◌≢◌, List, [], IfOk, IsErr, IsErrOf};
ghost use Rattle.go_syntax.specs.grammar.SourceFiles.{HasOutline};
ghost use Rattle.go_syntax.specs.grammar.Terminals.{terminals};
ghost use Rattle.go_syntax.specs.declared.declaration.File.{File};
ghost use Rattle.go_syntax.specs.declared.token.Token.{Token};
ghost use Rattle.go_parse.specs.Declarations as rules;
ghost use Rattle.go_descent.specs.Levels.{levels};
ghost use Rattle.go_cursor.specs.Reads.{Reads};

use crate::declarations::decls;
use crate::imports::imports;
use go_cursor::cursor::Cursor;
use go_cursor::error::ParseError;
use go_exprs::readers::Readers;
use go_syntax::declaration::File;
use go_syntax::name::Name;
use go_syntax::token::{Token, TokenKind};
use std::alloc::Global;

// A tree of a file has a height of at most 256.
const MAX_HEIGHT: usize = 256;

/// The name of a package, which isn't `_`.
#[tactic(auto, unfolding(crate::specs::Declarations::package_name))]
fn package_name(alloc: Global, tokens: &mut Cursor<'_>) -> Result<Name, ParseError>
    ensures { Reads (rules.package_name (terminals tokens.old)) result tokens.new }
{
    let name = tokens.name(alloc)?;
    if name.text.bytes() == b"_".as_slice() {
        return Err(ParseError::Syntax);
    }
    Ok(name)
}

/// `package p;`.
#[tactic(auto, unfolding(crate::specs::Declarations::package_clause, go_cursor::specs::Reading::close, go_cursor::specs::Reading::expect))]
fn package_clause(alloc: Global, tokens: &mut Cursor<'_>) -> Result<Name, ParseError>
    ensures { Reads (rules.package_clause (terminals tokens.old)) result tokens.new }
{
    tokens.expect(TokenKind::PackageWord)?;
    let name = package_name(alloc, tokens)?;
    tokens.expect(TokenKind::Semicolon)?;
    Ok(name)
}

/// A file whose trees are of a height below that of these readers.
#[tactic(auto, unfolding(crate::specs::Declarations::file))]
fn file_below(readers: &Readers, tokens: &mut Cursor<'_>) -> Result<File, ParseError>
    ensures { Reads (rules.file (levels readers.now.height) (terminals tokens.old)) result tokens.new }
{
    let package = package_clause(readers.alloc, tokens)?;
    let imports = imports(readers.alloc, tokens)?;
    let decls = decls(readers, tokens)?;
    Ok(File {
        package,
        imports,
        decls: decls.take(),
    })
}

/// A file whose trees are of a height up to the greatest.
fn file(alloc: Global, tokens: &mut Cursor<'_>) -> Result<File, ParseError>
    ensures { Reads (rules.file (levels 257) (terminals tokens.old)) result tokens.new }
{
    let readers = Readers {
        alloc,
        height: MAX_HEIGHT + 1,
    };
    file_below(&readers, tokens)
}

/// A tree after which no token is left.
fn whole(found: File, tokens: &Cursor<'_>) -> Result<File, ParseError>
    ensures tree { IfOk result (λ f. (f ≡ found) × (terminals tokens.now ≡ [])) }
    ensures syntax { IsErr result → terminals tokens.now ≢ [] }
{
    if tokens.len() == 0 {
        Ok(found)
    } else {
        Err(ParseError::Syntax)
    }
}

/// The outline of a file of these tokens. Each name's place is the offset of its token. Answers
/// `Syntax` exactly where the tokens have no outline, and `NoMemory` where memory is wanting.
pub fn parse_outline(alloc: Global, tokens: &[Token]) -> Result<File, ParseError>
    ensures tree { IfOk result (HasOutline tokens.now) }
    ensures syntax { IsErrOf result ParseError.Syntax → (f : File) → HasOutline tokens.now f → ⊥ }
{
    let mut cursor = Cursor::new(tokens);
    match file(alloc, &mut cursor) {
        Ok(found) => whole(found, &cursor),
        Err(error) => Err(error),
    }
}

/// Tokens have at most one outline.
pub fn one_tree()
    ensures same { (tokens : List Token) (f g : File) → HasOutline tokens f → HasOutline tokens g → f ≡ g }
{}
