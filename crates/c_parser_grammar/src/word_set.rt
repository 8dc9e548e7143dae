//! Sets of the words of basic types.

ghost use Rattle.std.specs.Prelude.{◌≡◌};
ghost use Rattle.c_parser_grammar.specs.WordSets as sets;

use crate::TypeWord;
use c_tree::BasicType;

/// The word of a set that is neither a sign nor `int`.
#[derive(Clone, Copy, Debug, PartialEq, Eq)]
pub enum BaseWord {
    Void,
    Char,
    Short,
    Long,
}

/// The sign in a set.
#[derive(Clone, Copy, Debug, PartialEq, Eq)]
pub enum Sign {
    Signed,
    Unsigned,
}

/// The words of a basic type so far, in any order. A set that spells a type stays so without one of
/// its words, so each set here but the empty one spells a type (C99 6.7.2).
#[derive(Clone, Copy, Debug, PartialEq, Eq)]
pub struct WordSet {
    pub base: Option<BaseWord>,
    pub sign: Option<Sign>,
    pub int: bool,
}

impl WordSet {
    /// The empty set.
    pub fn new() -> WordSet
        ensures { result ≡ sets.no_words }
    {
        WordSet {
            base: None,
            sign: None,
            int: false,
        }
    }

    /// The set with one word more. It is `None` where no type has these words.
    pub fn with_word(self, word: TypeWord) -> Option<WordSet>
        ensures { result ≡ sets.with_word self word }
    {
        match word {
            TypeWord::Void => self.with_base(BaseWord::Void),
            TypeWord::Char => self.with_base(BaseWord::Char),
            TypeWord::Short => self.with_base(BaseWord::Short),
            TypeWord::Long => self.with_base(BaseWord::Long),
            TypeWord::Int => self.with_int(),
            TypeWord::Signed => self.with_sign(Sign::Signed),
            TypeWord::Unsigned => self.with_sign(Sign::Unsigned),
        }
    }

    fn with_base(self, base: BaseWord) -> Option<WordSet>
        ensures { result ≡ sets.with_base self base }
    {
        let fits = match base {
            BaseWord::Void => self.sign.is_none() && !self.int,
            BaseWord::Char => !self.int,
            BaseWord::Short => true,
            BaseWord::Long => true,
        };
        if fits && self.base.is_none() {
            Some(WordSet {
                base: Some(base),
                ..self
            })
        } else {
            None
        }
    }

    fn with_int(self) -> Option<WordSet>
        ensures { result ≡ sets.with_int self }
    {
        let fits = match self.base {
            Some(BaseWord::Void) => false,
            Some(BaseWord::Char) => false,
            _ => true,
        };
        if fits && !self.int {
            Some(WordSet { int: true, ..self })
        } else {
            None
        }
    }

    fn with_sign(self, sign: Sign) -> Option<WordSet>
        ensures { result ≡ sets.with_sign self sign }
    {
        let fits = match self.base {
            Some(BaseWord::Void) => false,
            _ => true,
        };
        if fits && self.sign.is_none() {
            Some(WordSet {
                sign: Some(sign),
                ..self
            })
        } else {
            None
        }
    }

    /// The type that the words spell. It is `None` for the empty set alone.
    pub fn basic(self) -> Option<BasicType>
        ensures { result ≡ sets.basic_of self }
    {
        match self.base {
            Some(BaseWord::Void) => Some(BasicType::Void),
            Some(BaseWord::Char) => match self.sign {
                None => Some(BasicType::Char),
                Some(Sign::Signed) => Some(BasicType::SignedChar),
                Some(Sign::Unsigned) => Some(BasicType::UnsignedChar),
            },
            Some(BaseWord::Short) => match self.sign {
                Some(Sign::Unsigned) => Some(BasicType::UnsignedShort),
                _ => Some(BasicType::Short),
            },
            Some(BaseWord::Long) => match self.sign {
                Some(Sign::Unsigned) => Some(BasicType::UnsignedLong),
                _ => Some(BasicType::Long),
            },
            None => match self.sign {
                Some(Sign::Signed) => Some(BasicType::Signed),
                Some(Sign::Unsigned) => Some(BasicType::Unsigned),
                None => { if self.int { Some(BasicType::Int) } else { None } }
            },
        }
    }
}
