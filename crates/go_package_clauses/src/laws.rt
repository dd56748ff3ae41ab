//! Laws of the package clause of a file, as its header tells it and as its outline has it.
ghost use Rattle.std.specs.Prelude.{◌≡◌, ℕ, List, Option, Some};
ghost use Rattle.go_imports.specs.declared.package_files.SourceFile.{SourceFile};
ghost use Rattle.go_model.specs.declared.files.build.Header.{Header};
ghost use Rattle.go_model.specs.declared.files.platform.Platform.{Platform};
ghost use Rattle.go_model.specs.declared.files.tree.TreeFile.{TreeFile};
ghost use Rattle.go_model.specs.files.Headers.{IsHeader};
ghost use Rattle.go_package_clauses.specs.OutlineNames.{outlined_name};
ghost use Rattle.go_reading.specs.FolderReadings.{IsPackageName, IsReading};
ghost use Rattle.go_syntax.specs.declared.declaration.File.{File};
ghost use Rattle.go_syntax.specs.declared.token.Token.{Token};
ghost use Rattle.go_syntax.specs.grammar.SourceFiles.{HasOutline};
ghost use Rattle.go_syntax.specs.lexical.Tokens.{IsTokens};
ghost use Rattle.go_units.specs.declared.reader.Reading.TheVariants as reading;

/// The header of a file with an outline tells the name in the outline's package clause.
pub fn clause_of_outline()
    ensures { (bytes : List ℕ) (header : Header) (tokens : List Token) (f : File) → IsHeader bytes header → IsTokens bytes tokens → HasOutline tokens f → header.clause ≡ Some f.«package».text }
{}

/// The name of a folder's package that its headers tell on a platform, where its files are read there, is the one in the first outline.
pub fn package_of_outlines()
    ensures { (p : Platform) (files : List TreeFile) (sources : List SourceFile) (said : Option (List ℕ)) → IsReading p files (reading.Files sources) → IsPackageName p files said → said ≡ outlined_name sources }
{}
