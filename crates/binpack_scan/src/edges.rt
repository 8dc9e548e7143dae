//! The code of each edge of a function.

ghost use Rattle.std.specs.Prelude.{◌≡◌, ◌++◌, ◌∷◌, ◌<◌, ◌^◌, [], All, map, length, slice_index_or, IfOk, OnOk};
ghost use Rattle.cfg.specs.Edges.{successors_from};
ghost use Rattle.temp_ir.specs.Insns.{targets_of, flows_on_of};
ghost use Rattle.alloc_model.specs.Faithful.{sorted_targets, sorted_edges_from};
ghost use Rattle.binpack_scan.specs.model.Edges.{AreMaps, IsEdgeCode, ends_of, edges_to, IsMap};

use crate::crossing::code_between;
use alloc_model::allocation::{EdgeCode, TempPlace};
use bk_bits::BitSet;
use bk_containers::Seq;
use cfg::Graph;
use pass_core::function::Func;
use std::alloc::{AllocError, Global};
use temp_ir::insn::TempInsn;

/// The map of a block.
fn map_at(maps: &[Seq<TempPlace>], block: u32) -> &[TempPlace]
    ensures { result.now ≡ slice_index_or maps.now block [] }
{
    match maps.get(block as usize) {
        None => &[],
        Some(places) => places.as_slice(),
    }
}

/// Puts the edge from a block to another.
#[tactic(auto, using(crate::proofs::EdgeCodes::ends_behind, crate::proofs::EdgeCodes::all_behind, crate::proofs::EdgeCodes::map_there))]
fn put_edge(
    alloc: Global,
    out: &mut Seq<EdgeCode>,
    from: u32,
    to: u32,
    bottoms: &[Seq<TempPlace>],
    tops: &[Seq<TempPlace>],
    lives: &[BitSet],
    needs: &[BitSet],
) -> Result<(), AllocError>
    requires bottoms { AreMaps bottoms.now lives.now }
    requires needed { AreMaps bottoms.now needs.now }
    requires tops { AreMaps tops.now lives.now }
    ensures ends { OnOk result (ends_of out.new ≡ ends_of out.old ++ (from, to) ∷ []) }
    ensures codes { OnOk result (All (IsEdgeCode bottoms.now tops.now lives.now needs.now) out.old
        → All (IsEdgeCode bottoms.now tops.now lives.now needs.now) out.new) }
{
    let code = code_between(
        alloc,
        map_at(bottoms, from),
        map_at(tops, to),
        lives,
        needs,
        to,
    )?;
    out.push(EdgeCode { from, to, code })?;
    Ok(())
}

/// Puts the edges from a block to others.
fn put_edges(
    alloc: Global,
    out: &mut Seq<EdgeCode>,
    from: u32,
    targets: &[u32],
    bottoms: &[Seq<TempPlace>],
    tops: &[Seq<TempPlace>],
    lives: &[BitSet],
    needs: &[BitSet],
) -> Result<(), AllocError>
    requires bottoms { AreMaps bottoms.now lives.now }
    requires needed { AreMaps bottoms.now needs.now }
    requires tops { AreMaps tops.now lives.now }
    ensures ends { OnOk result (ends_of out.new ≡ ends_of out.old ++ edges_to from targets.now) }
    ensures codes { OnOk result (All (IsEdgeCode bottoms.now tops.now lives.now needs.now) out.old
        → All (IsEdgeCode bottoms.now tops.now lives.now needs.now) out.new) }
{
    for to in targets {
        put_edge(alloc, out, from, *to, bottoms, tops, lives, needs)?;
    }
    Ok(())
}

/// Puts the edges from a block, where these blocks may follow it, by rising number.
#[tactic(auto, using(crate::proofs::EdgeCodes::few_edges, crate::proofs::EdgeCodes::same_edges, crate::proofs::EdgeCodes::turned_edges))]
fn put_rising_edges(
    alloc: Global,
    out: &mut Seq<EdgeCode>,
    from: u32,
    followers: &[u32],
    bottoms: &[Seq<TempPlace>],
    tops: &[Seq<TempPlace>],
    lives: &[BitSet],
    needs: &[BitSet],
) -> Result<(), AllocError>
    requires bottoms { AreMaps bottoms.now lives.now }
    requires needed { AreMaps bottoms.now needs.now }
    requires tops { AreMaps tops.now lives.now }
    ensures ends { OnOk result (ends_of out.new ≡ ends_of out.old ++ edges_to from (sorted_targets followers.now)) }
    ensures codes { OnOk result (All (IsEdgeCode bottoms.now tops.now lives.now needs.now) out.old
        → All (IsEdgeCode bottoms.now tops.now lives.now needs.now) out.new) }
{
    if followers.len() != 2 {
        put_edges(alloc, out, from, followers, bottoms, tops, lives, needs)?;
        return Ok(());
    }
    let first = followers[0];
    let second = followers[1];
    if second < first {
        put_edge(alloc, out, from, second, bottoms, tops, lives, needs)?;
        put_edge(alloc, out, from, first, bottoms, tops, lives, needs)?;
        Ok(())
    } else {
        put_edges(alloc, out, from, followers, bottoms, tops, lives, needs)?;
        Ok(())
    }
}

/// The code of each edge of a function, where these are the maps at the bottoms and tops of its blocks, and what is
/// live and has to be in its slot at their tops.
pub(crate) fn all_edges(
    alloc: Global,
    f: &Func<TempInsn>,
    graph: &Graph,
    bottoms: &[Seq<TempPlace>],
    tops: &[Seq<TempPlace>],
    lives: &[BitSet],
    needs: &[BitSet],
) -> Result<Seq<EdgeCode>, AllocError>
    requires graph { graph.now.succ ≡ successors_from targets_of flows_on_of 0 f.now.blocks }
    requires bottoms { AreMaps bottoms.now lives.now }
    requires needed { AreMaps bottoms.now needs.now }
    requires tops { AreMaps tops.now lives.now }
    ensures ends { IfOk result (λ edges. ends_of edges ≡ sorted_edges_from 0 f.now.blocks) }
    ensures codes { IfOk result (All (IsEdgeCode bottoms.now tops.now lives.now needs.now)) }
{
    let mut edges = Seq::new(alloc);
    let followers = graph.succ.as_slice();
    for from in 0..f.blocks.len() {
        put_rising_edges(
            alloc,
            &mut edges,
            from as u32,
            followers[from].as_slice(),
            bottoms,
            tops,
            lives,
            needs,
        )?;
    }
    Ok(edges)
}
