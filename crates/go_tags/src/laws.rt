//! Laws of the definitions: a platform by its name, a header and a build expression are one.
ghost use Rattle.std.specs.Prelude.{◌≡◌, ℕ, List};
ghost use Rattle.go_model.specs.files.BuildConstraints.{IsExpression};
ghost use Rattle.go_model.specs.files.Headers.{IsHeader};
ghost use Rattle.go_model.specs.files.Platforms.{name_of};
ghost use Rattle.go_model.specs.declared.files.build.Constraint.{Constraint};
ghost use Rattle.go_model.specs.declared.files.build.Header.{Header};
ghost use Rattle.go_model.specs.declared.files.platform.Platform.{Platform};
ghost use Rattle.go_tags.specs.HeaderCauses.{HasCause, IsOwnCause};
ghost use Rattle.go_tags.specs.declared.error.TagError.{TagError};

/// No two platforms share a name.
pub fn one_platform()
    ensures { (p q : Platform) → name_of p ≡ name_of q → p ≡ q }
{}

/// A text is at most one build expression.
pub fn one_expression()
    ensures { (text : List ℕ) (x y : Constraint) → IsExpression text x → IsExpression text y → x ≡ y }
{}

/// A file has at most one header, at most one cause, and not both.
pub fn one_header()
    ensures header { (bytes : List ℕ) (one two : Header) → IsHeader bytes one → IsHeader bytes two → one ≡ two }
    ensures cause { (bytes : List ℕ) (one two : TagError) → IsOwnCause one → IsOwnCause two → HasCause bytes one → HasCause bytes two → one ≡ two }
    ensures either { (bytes : List ℕ) (header : Header) (error : TagError) → IsOwnCause error → HasCause bytes error → IsHeader bytes header → ⊥ }
{}
