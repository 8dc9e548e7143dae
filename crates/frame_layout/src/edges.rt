//! The transfers of edges, by the blocks where they stand.

ghost use Rattle.std.specs.Prelude.{◌≡◌, ◌≢◌, ℕ, ◌+◌, ◌<◌, ◌^◌, ◌==◌, [], get_or, length, map, slice_get, slice_index_or, None, Some, IfOk};
ghost use Rattle.std.specs.List.{position_or_len};
ghost use Rattle.pass_core.specs.Functions.{last_of};
ghost use Rattle.alloc_model.specs.Places.{code_in};
ghost use Rattle.frame_emitter.specs.Items.{ends_with_branch};
ghost use Rattle.frame_layout.specs.model.Edges.{next_after, next_in, top_key, end_key};

use alloc_model::allocation::{EdgeCode, Transfer};
use bk_containers::Seq;
use std::alloc::{AllocError, Global};
use temp_ir::insn::TempInsn;

/// No block has this number.
const NO_BLOCK: u32 = u32::MAX;

/// For each block the edge whose transfers stand at its top, and the one whose transfers stand at its end, each by its
/// place among all edges, and where there is none by their number.
#[derive(Drop)]
pub(crate) struct EdgePlaces<'a> {
    pub(crate) blocks: &'a [Seq<TempInsn>],
    pub(crate) edges: &'a [EdgeCode],
    pub(crate) tops: Vec<usize>,
    pub(crate) ends: Vec<usize>,
    pub(crate) ghost tops_are: { (k : ℕ) → k < length blocks.now →
        get_or tops.items k 0 ≡ position_or_len (λ key. key == k) (map (top_key blocks.now) edges.now) },
    pub(crate) ghost ends_are: { (k : ℕ) → k < length blocks.now →
        get_or ends.items k 0 ≡ position_or_len (λ key. key == k) (map (end_key blocks.now) edges.now) },
    pub(crate) ghost tops_all: { length tops.items ≡ length blocks.now },
    pub(crate) ghost ends_all: { length ends.items ≡ length blocks.now },
}

/// Whether a block ends with a branch.
pub(crate) fn ends_with_branch(insns: &[TempInsn]) -> bool
    ensures { result ≡ ends_with_branch insns.now }
{
    match insns.last() {
        None => false,
        Some(insn) => match insn {
            TempInsn::Branch { .. } => true,
            _ => false,
        },
    }
}

/// The only block that follows a block with a number, if there is one alone.
fn next_after(number: u32, insns: &[TempInsn]) -> u32
    requires { number + 1 < 2 ^ 32 }
    ensures { result ≡ next_after number (last_of insns.now) }
{
    match insns.last() {
        None => number + 1,
        Some(insn) => match insn {
            TempInsn::Jump { block } => *block,
            TempInsn::Branch { .. } => NO_BLOCK,
            TempInsn::Return { .. } => NO_BLOCK,
            _ => number + 1,
        },
    }
}

/// The same of one of some blocks.
fn next_in(blocks: &[Seq<TempInsn>], number: u32) -> u32
    requires { length blocks.now < 2 ^ 30 }
    ensures { result ≡ next_in blocks.now number }
{
    match blocks.get(number as usize) {
        None => NO_BLOCK,
        Some(insns) => next_after(number, insns.as_slice()),
    }
}

/// Whether one of some blocks ends with a branch.
fn branches_at(blocks: &[Seq<TempInsn>], number: u32) -> bool
    ensures { result ≡ ends_with_branch (slice_index_or blocks.now number []) }
{
    match blocks.get(number as usize) {
        None => false,
        Some(insns) => ends_with_branch(insns.as_slice()),
    }
}

/// The block at whose top the transfers of an edge stand.
fn top_key(blocks: &[Seq<TempInsn>], edge: &EdgeCode) -> u32
    ensures { result ≡ top_key blocks.now edge.now }
{
    if branches_at(blocks, edge.from) {
        edge.to
    } else {
        NO_BLOCK
    }
}

/// The block at whose end they stand.
fn end_key(blocks: &[Seq<TempInsn>], edge: &EdgeCode) -> u32
    requires { length blocks.now < 2 ^ 30 }
    ensures { result ≡ end_key blocks.now edge.now }
{
    if next_in(blocks, edge.from) == edge.to {
        edge.from
    } else {
        NO_BLOCK
    }
}

/// The blocks at whose tops edges stand.
fn top_keys(
    alloc: Global,
    blocks: &[Seq<TempInsn>],
    edges: &[EdgeCode],
) -> Result<Vec<u32>, AllocError>
    ensures { IfOk result (λ keys. keys.items ≡ map (top_key blocks.now) edges.now) }
{
    let mut keys = Vec::new(alloc);
    for edge in edges {
        keys.push(top_key(blocks, edge))?;
    }
    Ok(keys)
}

/// The blocks at whose ends they stand.
fn end_keys(
    alloc: Global,
    blocks: &[Seq<TempInsn>],
    edges: &[EdgeCode],
) -> Result<Vec<u32>, AllocError>
    requires { length blocks.now < 2 ^ 30 }
    ensures { IfOk result (λ keys. keys.items ≡ map (end_key blocks.now) edges.now) }
{
    let mut keys = Vec::new(alloc);
    for edge in edges {
        keys.push(end_key(blocks, edge))?;
    }
    Ok(keys)
}

/// For each number below a count, the first place where it is a key.
#[tactic(auto, using(crate::proofs::Keys::no_place, crate::proofs::Keys::one_place, crate::proofs::Keys::same_place))]
fn first_places(alloc: Global, keys: &[u32], count: usize) -> Result<Vec<usize>, AllocError>
    ensures all { IfOk result (λ places. length places.items ≡ count) }
    ensures are { IfOk result (λ places.
        (k : ℕ) → k < count → get_or places.items k 0 ≡ position_or_len (λ key. key == k) keys.now) }
{
    let mut places = Vec::new(alloc);
    places.resize(count, keys.len())?;
    for at in (0..keys.len()).rev() {
        let key = keys[at] as usize;
        if key < count {
            places[key] = at;
        }
    }
    Ok(places)
}

/// The transfers of the edge at a place.
fn code_at<'a>(edges: &'a [EdgeCode], place: usize) -> &'a [Transfer]
    ensures { result.now ≡ code_in (slice_get edges.now place) }
{
    match edges.get(place) {
        None => &[],
        Some(edge) => edge.code.as_slice(),
    }
}

impl<'a> EdgePlaces<'a> {
    /// The places of the edges between blocks. It fails only where memory is short.
    pub(crate) fn new(
        alloc: Global,
        blocks: &'a [Seq<TempInsn>],
        edges: &'a [EdgeCode],
    ) -> Result<EdgePlaces<'a>, AllocError>
        requires { length blocks.now < 2 ^ 30 }
        ensures blocks { IfOk result (λ p. p.blocks.now ≡ blocks.now) }
        ensures edges { IfOk result (λ p. p.edges.now ≡ edges.now) }
    {
        let top_keys = top_keys(alloc, blocks, edges)?;
        let end_keys = end_keys(alloc, blocks, edges)?;
        let tops = first_places(alloc, top_keys.as_slice(), blocks.len())?;
        let ends = first_places(alloc, end_keys.as_slice(), blocks.len())?;
        Ok(EdgePlaces {
            blocks,
            edges,
            tops,
            ends,
        })
    }

    /// The transfers at the top of a block.
    pub(crate) fn top(&self, block: u32) -> &[Transfer]
        requires { block < length self.now.blocks.now }
        ensures { result.now ≡ code_in (slice_get self.now.edges.now
            (position_or_len (λ key. key == block) (map (top_key self.now.blocks.now) self.now.edges.now))) }
    {
        code_at(self.edges, self.tops[block as usize])
    }

    /// The transfers of the edge to the only block that follows.
    pub(crate) fn end(&self, block: u32) -> &[Transfer]
        requires { block < length self.now.blocks.now }
        ensures { result.now ≡ code_in (slice_get self.now.edges.now
            (position_or_len (λ key. key == block) (map (end_key self.now.blocks.now) self.now.edges.now))) }
    {
        code_at(self.edges, self.ends[block as usize])
    }
}
