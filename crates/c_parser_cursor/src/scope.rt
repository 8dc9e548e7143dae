//! The names of types so far.

ghost use Rattle.std.specs.Prelude.{◌≡◌, [], OnOk, OnErr};
ghost use Rattle.c_parser_grammar.specs.Tokens as words;
ghost use Rattle.c_parser_grammar.specs.Units as units;

use crate::cursor::Tokens;
use bk_containers::Name;
use c_parser_grammar::{Specifier, specifier_of};
use std::alloc::{AllocError, Global};
use std::collections::HashSet;
use std::marker::Model;

/// The names that `typedef` has made so far, which contracts see as a list with the newest first.
#[derive(Drop)]
pub struct TypedefScope {
    /// With the oldest first.
    list: Vec<Name>,
    /// The same names, in which one is found at once.
    index: HashSet<Vec<u8>>,
}

impl Model for TypedefScope {
    ghost use Rattle.std.specs.Prelude.{List, ℕ, reverse};
    ghost use Rattle.c_parser_cursor.specs.model.Indexes.{IsIndex};

    ghost Value = { List (List ℕ) };

    ghost view = { λ s. reverse s.list.items };

    ghost invariant = { λ s. IsIndex s.index s.list.items };
}

impl TypedefScope {
    /// The scope with no name of a type.
    pub fn new(alloc: Global) -> TypedefScope
        ensures { result ≡ [] }
    {
        TypedefScope {
            list: Vec::new(alloc),
            index: HashSet::new(alloc),
        }
    }

    /// Whether the name is that of a type.
    fn is_type(&self, name: &[u8]) -> bool
        ensures { result ≡ words.is_type_name self.now name.now }
    {
        self.index.contains(name)
    }

    /// Makes the name that of a type. Where memory is short, the scope is as before.
    pub fn add_type(&mut self, alloc: Global, name: Name) -> Result<(), AllocError>
        ensures added { OnOk result (self.new ≡ units.with_type self.old name) }
        ensures unchanged { OnErr result (self.new ≡ self.old) }
    {
        let key = Vec::from_slice(alloc, name.as_slice())?;
        self.list.push(name)?;
        if self.index.insert(key).is_err() {
            self.list.pop();
            return Err(AllocError);
        }
        Ok(())
    }

    /// Whether the next token spells the name of a type.
    pub fn is_type_at(&self, tokens: &Tokens<'_>) -> bool
        ensures { result ≡ words.is_type_at self.now tokens.now }
    {
        self.is_type(tokens.spelling())
    }

    /// Whether a type begins at the next token.
    pub fn begins_type(&self, tokens: &Tokens<'_>) -> bool
        ensures { result ≡ words.begins_type self.now tokens.now }
    {
        match specifier_of(tokens.peek()) {
            Specifier::Name => self.is_type_at(tokens),
            Specifier::Nothing => false,
            _ => true,
        }
    }
}
