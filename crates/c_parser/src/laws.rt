//! The laws of reading a text, on functions that do nothing: a text has one answer.

ghost use Rattle.std.specs.Prelude.{◌≡◌, ◌≢◌, List, ℕ};
ghost use Rattle.c_tree.specs.declared.declarations.TranslationUnit.{TranslationUnit};
ghost use Rattle.c_parser.specs.Reading.{IsRead, IsNotRead};
ghost use Rattle.c_parser.specs.declared.fault.ParseFault.{ParseFault};
ghost use Rattle.c_parser.specs.declared.fault.ParseFault.TheVariants.{NoMemory};

/// A text is read as one tree at most.
pub fn one_tree()
    ensures { (text : List ℕ) (x y : TranslationUnit) → IsRead text x → IsRead text y → x ≡ y }
{}

/// A text that is read is refused for no cause.
pub fn read_or_refused()
    ensures { (text : List ℕ) (x : TranslationUnit) (fault : ParseFault) → IsRead text x → IsNotRead text fault →
        fault ≡ NoMemory }
{}

/// A text that is not read is refused for one cause, with one place or count.
pub fn one_cause()
    ensures { (text : List ℕ) (a b : ParseFault) → IsNotRead text a → IsNotRead text b → a ≢ NoMemory → b ≢
        NoMemory → a ≡ b }
{}
