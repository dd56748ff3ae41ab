//! The files of a client, parsed.
ghost use Rattle.std.specs.Prelude.{◌≡◌, ◌≤◌, length, IfOk, IfErr};
ghost use Rattle.go_client_files.specs.ClientFiles.{IsParsed};
ghost use Rattle.go_client_files.specs.inner.Causes.{Causes, HasBadText, HasBadTokens, HasNoBlocks, IsParsedOf};
ghost use Rattle.go_file_blocks.specs.FileBlocks.{HasFileBlocks};
ghost use Rattle.go_imports.specs.Outlines.{IsOutlineOf};
ghost use Rattle.go_reading.specs.ChosenFiles.{path_of};
ghost use Rattle.go_syntax.specs.grammar.SourceFiles.{HasOutline};
ghost use Rattle.go_syntax.specs.lexical.Tokens.{IsTokens};

use go_base::list::List;
use go_base::memory::NoMemory;
use go_base::text::Text;
use go_cursor::error::ParseError;
use go_file_blocks::blocks::file_blocks;
use go_imports::outline::Outline;
use go_imports::package_files::SourceFile;
use go_lex::error::LexError;
use go_lex::laws::one_list;
use go_lex::scan::scan;
use go_load::names::under;
use go_model::files::tree::TreeFile;
use go_reading::go_parse::outline::{one_tree, parse_outline};
use go_syntax::declaration::File;
use go_syntax::statement::LiteralBlock;
use go_syntax::token::Token;
use go_units::reader::FileFault;
use std::alloc::Global;

/// A file of a client, with the block of each of its functions and function literals, by its place.
#[derive(Drop)]
pub struct ParsedFile {
    pub source: SourceFile,
    pub blocks: List<LiteralBlock>,
}

/// Why a file gives nothing.
#[derive(Clone, Copy, PartialEq, Eq)]
pub(crate) enum FileError {
    Faulty(FileFault),
    NoMemory,
}

fn outline_of(alloc: Global, tokens: &[Token]) -> Result<File, FileError>
    ensures ok { IfOk result (HasOutline tokens.now) }
    ensures cause { IfErr result (Causes (HasBadTokens tokens.now)) }
{
    match parse_outline(alloc, tokens) {
        Err(ParseError::NoMemory) => Err(FileError::NoMemory),
        Err(ParseError::Syntax) => Err(FileError::Faulty(FileFault::Syntax)),
        Ok(outline) => Ok(outline),
    }
}

fn blocks_of(
    alloc: Global,
    tokens: &[Token],
    outline: &File,
) -> Result<List<LiteralBlock>, FileError>
    ensures ok { IfOk result (HasFileBlocks tokens.now outline.now) }
    ensures cause { IfErr result (Causes (HasNoBlocks tokens.now outline.now)) }
{
    match file_blocks(alloc, tokens, outline) {
        Err(ParseError::NoMemory) => Err(FileError::NoMemory),
        Err(ParseError::Syntax) => Err(FileError::Faulty(FileFault::Syntax)),
        Ok(blocks) => Ok(blocks),
    }
}

// A file with this tree, which is the outline of these bytes.
fn outlined(
    alloc: Global,
    bytes: &Text,
    tree: File,
    blocks: List<LiteralBlock>,
    path: Text,
) -> Result<ParsedFile, NoMemory>
    requires { IsOutlineOf bytes.now tree }
    ensures path { IfOk result (λ p. p.source.path ≡ path) }
    ensures outline { IfOk result (λ p. p.source.outline ≡ tree) }
    ensures blocks { IfOk result (λ p. p.blocks ≡ blocks) }
{
    one_list();
    one_tree();
    let outline = Outline::new(alloc, bytes, tree)?;
    Ok(ParsedFile {
        source: SourceFile { path, outline },
        blocks,
    })
}

fn parsed_tokens(
    alloc: Global,
    bytes: &Text,
    tokens: &[Token],
    path: Text,
) -> Result<ParsedFile, FileError>
    requires { IsTokens bytes.now tokens.now }
    ensures path { IfOk result (λ p. p.source.path ≡ path) }
    ensures ok { IfOk result (IsParsedOf tokens.now) }
    ensures cause { IfErr result (Causes (HasBadTokens tokens.now)) }
{
    one_tree();
    match outline_of(alloc, tokens) {
        Err(error) => Err(error),
        Ok(outline) => match blocks_of(alloc, tokens, &outline) {
            Err(error) => Err(error),
            Ok(blocks) => match outlined(alloc, bytes, outline, blocks, path) {
                Err(NoMemory) => Err(FileError::NoMemory),
                Ok(parsed) => Ok(parsed),
            },
        },
    }
}

fn parsed_at(alloc: Global, file: &TreeFile, path: Text) -> Result<ParsedFile, FileError>
    requires small { length file.now.bytes ≤ 4194304 }
    requires path { path ≡ path_of file.now }
    ensures ok { IfOk result (IsParsed file.now) }
    ensures cause { IfErr result (Causes (HasBadText file.now.bytes)) }
{
    match scan(alloc, file.bytes.bytes()) {
        Err(LexError::NoMemory) => Err(FileError::NoMemory),
        Err(LexError::BadToken(offset)) => Err(FileError::Faulty(FileFault::BadToken(offset))),
        Ok(tokens) => parsed_tokens(alloc, &file.bytes, tokens.items(), path),
    }
}

/// A file with its outline and its blocks.
pub(crate) fn parsed_file(alloc: Global, file: &TreeFile) -> Result<ParsedFile, FileError>
    requires { length file.now.bytes ≤ 4194304 }
    ensures ok { IfOk result (IsParsed file.now) }
    ensures cause { IfErr result (Causes (HasBadText file.now.bytes)) }
{
    match under(alloc, file.folder.bytes(), file.name.bytes()) {
        Err(_) => Err(FileError::NoMemory),
        Ok(path) => parsed_at(alloc, file, path),
    }
}
