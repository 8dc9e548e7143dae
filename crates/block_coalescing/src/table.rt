//! Which temporary of the new block holds what a temporary of the old one does.

ghost use Rattle.std.specs.Prelude.{◌≡◌, ◌≢◌, ℕ, ◌<◌, ◌≤◌, ◌⊎◌, length, slice_index_or, Some, None, IfSome, IfOk, true, List, Bool};
ghost use Rattle.std.specs.Bool.{OnTrue};
ghost use Rattle.bk_bits.specs.Sets.{has};

use bk_bits::BitSet;
use std::alloc::{AllocError, Global};

/// Names with the times at which they were noted. A name counts while its temporary was not written since; a temporary
/// of which nothing was noted since the top of the block has its own name there, where it is live. So no table is
/// cleared between blocks.
#[derive(Drop)]
pub(crate) struct NameTable {
    pub(crate) names: Vec<Option<u32>>,
    pub(crate) since: Vec<u64>,
    pub(crate) written: Vec<u64>,
    pub(crate) start: u64,
    pub(crate) clock: u64,
    ghost as_many: { length since.items ≡ length names.items },
    ghost written_too: { length written.items ≡ length names.items },
    ghost begun: { start ≤ clock },
    ghost timely: { (r : ℕ) → slice_index_or since.items r 0 ≤ clock },
}

/// No name, for so many temporaries.
pub(crate) fn no_names(alloc: Global, temps: u32) -> Result<NameTable, AllocError> {
    let mut names = Vec::new(alloc);
    names.resize(temps as usize, None)?;
    let mut since = Vec::new(alloc);
    since.resize(temps as usize, 0)?;
    let mut written = Vec::new(alloc);
    written.resize(temps as usize, 0)?;
    Ok(NameTable {
        names,
        since,
        written,
        start: 0,
        clock: 0,
    })
}

/// Whether a number is in a set.
pub(crate) fn is_member(set: &BitSet, k: u32) -> bool
    ensures { OnTrue result (has set.now k ≡ true) }
{
    match set.next_from(k) {
        None => false,
        Some(member) => member == k,
    }
}

impl NameTable {
    ghost use Rattle.std.specs.Prelude.{◌≡◌, ◌≢◌, ℕ, ◌<◌, ◌⊎◌, Some, IfSome, true, List, Bool};
    ghost use Rattle.std.specs.Bool.{OnTrue};
    ghost use Rattle.bk_bits.specs.Sets.{has};
    ghost use Rattle.block_coalescing.specs.Walks.{WriteName, IsTop};
    ghost use Rattle.block_coalescing.specs.model.Tables.{name_of, still};

    /// A temporary, where it was not written since a time.
    fn standing(&self, temp: u32, since: u64) -> Option<u32>
        ensures { IfSome result (λ q. still self.now.written.items since (Some temp) ≡ Some q) }
    {
        let Some(written) = self.written.get(temp as usize) else {
            return None;
        };
        if *written <= since { Some(temp) } else { None }
    }

    /// The temporary that now holds what the old code has in one.
    pub(crate) fn name(&self, top: &BitSet, temp: u32) -> Option<u32>
        ensures { IfSome result (λ q. name_of self.now top.now temp ≡ Some q) }
    {
        let at = temp as usize;
        if at >= self.names.len() {
            return None;
        }
        let since = self.since[at];
        if since < self.start {
            if is_member(top, temp) {
                self.standing(temp, self.start)
            } else {
                None
            }
        } else {
            match self.names[at] {
                None => None,
                Some(noted) => self.standing(noted, since),
            }
        }
    }

    /// Another block begins.
    pub(crate) fn begin(&mut self) -> bool
        ensures { OnTrue result ((top : List Bool) → IsTop (has top) (name_of self.new top)) }
    {
        match self.clock.checked_add(1) {
            None => false,
            Some(now) => {
                self.clock = now;
                self.start = now;
                true
            }
        }
    }

    /// The old code puts into a temporary what some temporary holds, or something that is lost.
    pub(crate) fn note(&mut self, temp: u32, name: Option<u32>) -> bool
        ensures { OnTrue result ((top : List Bool) (r p : ℕ) → name_of self.new top r ≡ Some p →
            ((r ≡ temp) × (name ≡ Some p)) ⊎ ((r ≢ temp) × (name_of self.old top r ≡ Some p))) }
    {
        let at = temp as usize;
        if at >= self.names.len() {
            return false;
        }
        self.names[at] = name;
        self.since[at] = self.clock;
        true
    }

    /// Both write the same, each into a temporary.
    pub(crate) fn write(&mut self, temp: u32, name: u32) -> bool
        ensures { OnTrue result ((top : List Bool) (r p : ℕ) → name_of self.new top r ≡ Some p →
            WriteName (name_of self.old top) temp name r p) }
    {
        let at = temp as usize;
        let to = name as usize;
        if at >= self.names.len() || to >= self.names.len() {
            return false;
        }
        match self.clock.checked_add(1) {
            None => false,
            Some(now) => {
                self.clock = now;
                self.names[at] = Some(name);
                self.since[at] = now;
                self.written[to] = now;
                true
            }
        }
    }
}
