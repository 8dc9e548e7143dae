//! The blocks from which an edge leads to a block.

ghost use Rattle.std.specs.Prelude.{◌≡◌, ◌^◌, ◌<◌, ℕ, List, [], ◌∷◌, ◌++◌, length, IfOk, OnOk};
ghost use Rattle.cfg.specs.Edges.{edges_to, edges_from, sources_of_each, predecessors};

use bk_containers::Seq;
use std::alloc::{AllocError, Global};

/// Puts a block into the list of the one that its edge goes to.
fn add_edge(lists: &mut [Seq<u32>], to: u32, number: u32) -> Result<(), AllocError>
    ensures { OnOk result ((edges : List (ℕ × ℕ)) → lists.old ≡ sources_of_each (length lists.old) edges →
        lists.new ≡ sources_of_each (length lists.old) (edges ++ (number, to) ∷ [])) }
{
    if to as usize >= lists.len() {
        return Ok(());
    }
    let list = &mut lists[to as usize];
    list.push(number)?;
    Ok(())
}

/// Puts a block into the lists of those that its edges go to.
fn add_edges(lists: &mut [Seq<u32>], followers: &[u32], number: u32) -> Result<(), AllocError>
    ensures { OnOk result ((edges : List (ℕ × ℕ)) → lists.old ≡ sources_of_each (length lists.old) edges →
        lists.new ≡ sources_of_each (length lists.old) (edges ++ edges_to number followers.now)) }
{
    for to in followers {
        add_edge(lists, *to, number)?;
    }
    Ok(())
}

/// Puts each block into the lists of those that its edges go to.
fn add_all(lists: &mut [Seq<u32>], followers: &[Seq<u32>]) -> Result<(), AllocError>
    requires few { length followers.now < 2 ^ 32 }
    requires empty { lists.old ≡ sources_of_each (length lists.old) [] }
    ensures { OnOk result (lists.new ≡ sources_of_each (length lists.old) (edges_from 0 followers.now)) }
{
    for (number, block) in followers.iter().enumerate() {
        add_edges(lists, block.as_slice(), number as u32)?;
    }
    Ok(())
}

/// So many empty lists.
#[tactic(auto, using(crate::proofs::Sources::empty_more))]
fn empty_lists(alloc: Global, count: usize) -> Result<Vec<Seq<u32>>, AllocError>
    ensures { IfOk result (λ lists. lists.items ≡ sources_of_each count []) }
{
    let mut lists = Vec::new(alloc);
    for made in 0..count {
        lists.push(Seq::new(alloc))?;
    }
    Ok(lists)
}

/// The blocks from which an edge leads to each block.
pub(crate) fn predecessor_lists(
    alloc: Global,
    followers: &[Seq<u32>],
) -> Result<Seq<Seq<u32>>, AllocError>
    requires { length followers.now < 2 ^ 32 }
    ensures { IfOk result (λ lists. lists ≡ predecessors followers.now (length followers.now)) }
{
    let mut lists = empty_lists(alloc, followers.len())?;
    add_all(lists.as_mut_slice(), followers)?;
    Ok(Seq::from_vec(lists))
}
