//! Laws of lines.
ghost use Rattle.std.specs.Prelude.{◌≢◌, ◌⊎◌, ℕ, List};
ghost use Rattle.api_features.specs.Features.{IsFeature};
ghost use Rattle.api_frozen.specs.Comparison.{IsReport};
ghost use Rattle.api_frozen.specs.FrozenFiles.{HasCause, IsFrozenFile};
ghost use Rattle.api_frozen.specs.declared.error.FrozenError.{FrozenError};
ghost use Rattle.api_frozen.specs.declared.error.FrozenError.TheVariants.{NoMemory};
ghost use Rattle.api_frozen.specs.declared.signed.Signed.{Signed};
ghost use Rattle.api_lines.specs.Lines.{IsListing};
ghost use Rattle.api_lines.specs.Merging.{IsMerged};
ghost use Rattle.api_lines.specs.declared.line.Line.{Line};
ghost use Rattle.go_existence.specs.Existence.{NotNone};
ghost use Rattle.go_model.specs.declared.files.platform.Platform.{Platform};
ghost use Rattle.go_model.specs.worlds.Worlds.{Packages};

/// Packages have a list of features.
pub fn features_listed()
    ensures { (w : Packages) → NotNone ((lines : List Line) × IsListing (IsFeature w) lines) }
{}

/// Lists of lines for platforms have a merged list.
pub fn lines_merged()
    ensures { (lists : List (List Line)) (platforms : List Platform) → NotNone ((merged : List Line) × IsListing (IsMerged lists platforms) merged) }
{}

/// Features and frozen lines have a report of lost and new lines.
pub fn lines_compared()
    ensures { (features : List Line) (required exceptions : List (List ℕ)) → NotNone ((lines : List Signed) × IsReport features required exceptions lines) }
{}

/// Bytes are a file of frozen lines, or have a first fault.
pub fn lines_read()
    ensures { (bytes : List ℕ) → NotNone (((texts : List (List ℕ)) × IsFrozenFile bytes texts) ⊎ ((e : FrozenError) × (e ≢ NoMemory) × HasCause bytes e)) }
{}
