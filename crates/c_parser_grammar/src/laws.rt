//! The laws of the grammar, on functions that do nothing.

ghost use Rattle.std.specs.Prelude.{◌≡◌, ◌≤◌, ◌*◌, List, ℕ, length};
ghost use Rattle.c_lexer.specs.Pieces.{Lexeme, Toks};
ghost use Rattle.c_tree.specs.declared.declarations.TranslationUnit.{TranslationUnit};
ghost use Rattle.c_tree.specs.Nodes.{unit_nodes};
ghost use Rattle.c_parser_grammar.specs.Levels as grammar;
ghost use Rattle.c_parser_grammar.specs.declared.levels.TheConstants as code;
ghost use Rattle.c_parser_grammar.specs.Units.{Reads};
ghost use Rattle.c_parser_grammar.specs.Parser.{IsSuffix};
ghost use Rattle.c_parser_grammar.specs.Refused.{RefusedFrom};
ghost use Rattle.c_parser_grammar.specs.ParseUnits.{unit};

/// A list of tokens has at most one reading.
#[tactic(auto, using(crate::proofs::SoundUnits::one_reading))]
pub fn one_reading()
    ensures { (toks : Toks) (x y : TranslationUnit) → Reads toks x → Reads toks y → x ≡ y }
{}

/// The function `unit` of lists, which looks one token ahead, gives exactly the readings of the grammar.
#[tactic(auto, using(crate::proofs::ReadUnits::complete, crate::proofs::SoundUnits::sound))]
pub fn unit_is_exact()
    ensures complete { (toks : Toks) (x : TranslationUnit) → Reads toks x → unit toks ≡ Ok x }
    ensures sound { (toks : Toks) (x : TranslationUnit) → unit toks ≡ Ok x → Reads toks x }
{}

/// The tree of a reading has at most two nodes for each token.
#[tactic(auto, using(crate::proofs::FewUnits::unit_few))]
pub fn nodes_are_few()
    ensures { (toks : Toks) (x : TranslationUnit) → Reads toks x → unit_nodes x ≤ 2 * length toks.items }
{}

/// What the function `unit` refuses are the last of the tokens, from the refused one on.
#[tactic(auto, using(crate::proofs::SoundUnits::refused_end))]
pub fn refused_tokens_are_the_last()
    ensures { (toks : Toks) (rest : List Lexeme) → unit toks ≡ Err rest → IsSuffix rest toks.items }
{}

/// `unit` refuses from the first token on that ends no front of a list with a reading: some list with a
/// reading begins with the tokens before it, and none with these and the token itself.
pub fn refusals_are_exact()
    ensures { (toks : Toks) (rest : List Lexeme) → unit toks ≡ Err rest → RefusedFrom toks.items rest }
{}

/// The levels that parsers name are those of the grammar.
pub fn levels_are_of_the_grammar()
    ensures assignment { code.ASSIGNMENT ≡ grammar.assignment }
    ensures conditional { code.CONDITIONAL ≡ grammar.conditional }
    ensures cast { code.CAST ≡ grammar.cast }
    ensures unary { code.UNARY ≡ grammar.unary }
    ensures postfix { code.POSTFIX ≡ grammar.postfix }
    ensures primary { code.PRIMARY ≡ grammar.primary }
{}
