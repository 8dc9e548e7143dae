//! Laws of the definition of tokens.

ghost use Rattle.std.specs.Prelude.{◌≡◌, ◌⊎◌, ℕ};
ghost use Rattle.c_lexer.specs.Pieces.{FaultAt, Tokens, Toks};

/// A text has at most one list of tokens.
pub fn tokens_once(_text: &[u8])
    ensures { (a b : Toks) → Tokens _text.now a → Tokens _text.now b → a ≡ b }
{}

/// A text has at most one first fault place.
pub fn fault_once(_text: &[u8])
    ensures { (a b : ℕ) → FaultAt _text.now a → FaultAt _text.now b → a ≡ b }
{}

/// A text that has a list of tokens has no fault place.
pub fn tokens_or_fault(_text: &[u8])
    ensures { (toks : Toks) (at : ℕ) → Tokens _text.now toks → FaultAt _text.now at → ⊥ }
{}

/// Each text has a list of tokens or a first fault place.
pub fn tokens_exist(_text: &[u8])
    ensures { ((toks : Toks) × Tokens _text.now toks) ⊎ ((at : ℕ) × FaultAt _text.now at) }
{}
