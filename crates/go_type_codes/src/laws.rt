//! A law of the bytes of types and of pairs of types.
ghost use Rattle.std.specs.Prelude.{◌≡◌, []};
ghost use Rattle.go_model.specs.declared.types.term.Term.{Term};
ghost use Rattle.go_type_codes.specs.Codes.{code, code_of_pair};
ghost use Rattle.go_type_images.specs.declared.pair.TypePair.{TypePair};

/// A type is told by its bytes, of which it has some, and so is a pair of types.
pub fn one_code()
    ensures told { (t u : Term) → code t ≡ code u → t ≡ u }
    ensures some { (t : Term) → code t ≡ [] → ⊥ }
    ensures pairs { (p q : TypePair) → code_of_pair p ≡ code_of_pair q → p ≡ q }
{}
