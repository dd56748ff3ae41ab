//! The law of the definition of tokens: a file has one list of them, or one bad offset.
ghost use Rattle.std.specs.Prelude.{◌≡◌, ◌≤◌, ◌-◌, ℕ, List, length};
ghost use Rattle.go_base.specs.Comments.{without_mark};
ghost use Rattle.go_syntax.specs.declared.token.Token.{Token};
ghost use Rattle.go_syntax.specs.lexical.Lexemes.{CutTo, IsBadOffset, Lexeme};
ghost use Rattle.go_syntax.specs.lexical.Tokens.{IsTokens};

/// A file has at most one list of tokens and at most one bad offset, and never both.
pub fn one_list()
    ensures one { (bytes : List ℕ) (first second : List Token) → IsTokens bytes first → IsTokens bytes second → first ≡ second }
    ensures one_offset { (bytes : List ℕ) (first second : ℕ) → IsBadOffset bytes first → IsBadOffset bytes second → first ≡ second }
    ensures not_both { (bytes : List ℕ) (offset : ℕ) (tokens : List Token) → IsBadOffset bytes offset → IsTokens bytes tokens → ⊥ }
    ensures longest { (bytes : List ℕ) (offset : ℕ) (lexemes : List Lexeme) (rest : List ℕ) → IsBadOffset bytes offset → CutTo (without_mark bytes) lexemes rest → length bytes - length rest ≤ offset }
{}
