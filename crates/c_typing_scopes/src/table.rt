//! Tables of names.

ghost use Rattle.std.specs.Prelude.{◌≡◌, [], ◌∷◌, OnOk, OnErr, bytes_eq, drop, length};
ghost use Rattle.std.specs.Map.{set_value};
ghost use Rattle.std.specs.Option.{option_map};
ghost use Rattle.c_typing_scopes.specs.Names.{find, oldest};
ghost use Rattle.c_typing_scopes.specs.model.Shadows.{place_of};

use indexmap::IndexMap;
use std::alloc::{AllocError, Global};
use std::marker::Model;

/// A name with what it means, and the place of the one that it shadows.
#[derive(Drop)]
struct Declaration<'a, T> {
    name: &'a [u8],
    value: T,
    shadows: Option<usize>,
}

/// Names with what they mean. Contracts see them with the newest first. The names are borrowed, so none is copied.
#[derive(Drop)]
pub struct NameTable<'a, T> {
    /// With the oldest first.
    list: Vec<Declaration<'a, T>>,
    /// The place of the newest of each name. A name that is gone has none.
    newest: IndexMap<&'a [u8], Option<usize>>,
}

impl<'a, T> Model for NameTable<'a, T> {
    ghost use Rattle.std.specs.Prelude.{List, ℕ, reverse};
    ghost use Rattle.c_typing_scopes.specs.Names.{Entry};

    ghost Value = { List (Entry T) };

    ghost use Rattle.c_typing_scopes.specs.model.Shadows.{entries_of, IsChained, IsNewest};

    ghost view = { λ t. entries_of (reverse t.list.items) };

    ghost invariant = { λ t. IsChained (reverse t.list.items) × IsNewest t.newest (entries_of (reverse t.list.items)) };
}

/// Gives a name that is in the map another place.
fn set_place<'a>(newest: &mut IndexMap<&'a [u8], Option<usize>>, name: &[u8], place: Option<usize>)
    ensures { newest.new.entries ≡ set_value (λ k. bytes_eq name.now k.now) newest.old.entries place }
{
    match newest.get_mut(name) {
        None => {}
        Some(old) => *old = place,
    }
}

impl<'a, T: Drop> NameTable<'a, T> {
    /// No names.
    pub fn new(alloc: Global) -> NameTable<'a, T>
        ensures { result ≡ [] }
    {
        NameTable {
            list: Vec::new(alloc),
            newest: IndexMap::new(alloc),
        }
    }

    /// The number of names, those that are shadowed too.
    pub fn len(&self) -> usize
        ensures { result ≡ length self.now }
    {
        self.list.len()
    }

    /// The place of the newest declaration of the name.
    fn place(&self, name: &[u8]) -> Option<usize>
        ensures { result ≡ place_of (find name.now self.now) }
    {
        match self.newest.get(name) {
            None => None,
            Some(place) => *place,
        }
    }

    /// The newest declaration of the name: its place, which is the number of names that are older, and what it means.
    pub fn find(&self, name: &[u8]) -> Option<(usize, &T)>
        ensures { option_map (λ r. (r.0, r.1.now)) result ≡ find name.now self.now }
    {
        match self.place(name) {
            None => None,
            Some(place) => match self.list.get(place) {
                None => None,
                Some(found) => Some((place, &found.value)),
            },
        }
    }

    /// Declares a name. Where memory is short the names stay as they were.
    pub fn push(&mut self, name: &'a [u8], value: T) -> Result<(), AllocError>
        ensures ok { OnOk result (self.new ≡ record { name = name.now; value = value } ∷ self.old) }
        ensures err { OnErr result (self.new ≡ self.old) }
    {
        let shadows = self.place(name);
        let place = self.list.len();
        self.list.push(Declaration {
            name,
            value,
            shadows,
        })?;
        match self.newest.insert(name, Some(place)) {
            Ok(_) => Ok(()),
            Err(_) => {
                self.list.pop();
                Err(AllocError)
            }
        }
    }

    /// Takes the newest name away.
    fn pop(&mut self)
        ensures { self.new ≡ drop 1 self.old }
    {
        let Some(Declaration { name, shadows, .. }) = self.list.pop() else {
            return;
        };
        set_place(&mut self.newest, name, shadows);
    }

    /// Leaves a scope: the names that were there when there were `count` stay, and mean what they meant then.
    #[tactic(auto, using(crate::proofs::Leaving::leave_turn, crate::proofs::Leaving::leave_end))]
    pub fn leave(&mut self, count: usize)
        ensures { self.new ≡ oldest count self.old }
    {
        for _turn in count..self.len() {
            self.pop();
        }
    }
}
