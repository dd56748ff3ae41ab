//! Laws of files and of the units of trees.
ghost use Rattle.std.specs.Prelude.{◌≡◌, ◌≢◌, ◌⊎◌, ℕ, List, Err, Result};
ghost use Rattle.go_base.specs.Lists.{Has};
ghost use Rattle.go_existence.specs.Existence.{NotNone};
ghost use Rattle.go_model.specs.declared.files.build.Header.{Header};
ghost use Rattle.go_model.specs.declared.files.platform.Platform.{Platform};
ghost use Rattle.go_model.specs.declared.files.tree.Tree.{Tree};
ghost use Rattle.go_model.specs.declared.files.tree.TreeFile.{TreeFile};
ghost use Rattle.go_model.specs.files.Headers.{HasBadExpression, HasPlusAlone, HasTwoBuildLines, IsHeader};
ghost use Rattle.go_model.specs.files.Trees.{IsTree};
ghost use Rattle.go_reading.specs.FolderReadings.{IsReading};
ghost use Rattle.go_reading.specs.TreeUnits.{AreUnitsOfTrees};
ghost use Rattle.go_syntax.specs.declared.token.Token.{Token};
ghost use Rattle.go_syntax.specs.lexical.Lexemes.{IsBadOffset};
ghost use Rattle.go_syntax.specs.lexical.Tokens.{IsTokens};
ghost use Rattle.go_units.specs.declared.reader.Reading.{Reading};
ghost use Rattle.go_units.specs.declared.unit_error.UnitError.{UnitError};
ghost use Rattle.go_units.specs.declared.unit_error.UnitError.TheVariants.{NoMemory};
ghost use Rattle.go_units.specs.declared.unit_list.Units.{Units};

use go_tags::laws::one_header;

/// Bytes have tokens, or an offset at which none stands.
pub fn tokens_or_bad_offset()
    ensures { (bytes : List ℕ) → NotNone (((tokens : List Token) × IsTokens bytes tokens) ⊎ ((at : ℕ) × IsBadOffset bytes at)) }
{}

/// Bytes have a header, or one of its faults.
pub fn header_or_fault()
    ensures { (bytes : List ℕ) → NotNone (((h : Header) × IsHeader bytes h) ⊎ (HasBadExpression bytes ⊎ (HasTwoBuildLines bytes ⊎ HasPlusAlone bytes))) }
{}

/// The files of a folder give sources, or the first one that is refused.
pub fn files_read()
    ensures { (p : Platform) (files : List TreeFile) → NotNone ((r : Reading) × IsReading p files r) }
{}

/// Trees have units on a platform, or a first refusal, which isn't want of memory.
pub fn units_or_refusal()
    ensures { (p : Platform) (barred : List (List ℕ)) (tree std_tree : Tree) → Has barred tree.module → IsTree tree → IsTree std_tree
        → NotNone ((r : Result Units UnitError) × (r ≢ Err NoMemory) × AreUnitsOfTrees p barred tree std_tree r) }
{
    one_header();
}
