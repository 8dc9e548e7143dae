//! Units.

ghost use Rattle.std.specs.Prelude.{◌≡◌, ◌<◌, ◌≤◌, ◌^◌, IsTrue, length, nat_lt};
ghost use Rattle.std.specs.Bool.{OnFalse, OnTrue};
ghost use Rattle.std.specs.List.{list_all};
ghost use Rattle.c_typed_tree.specs.Lawful.{unit_nodes};
ghost use Rattle.c_typing_counts.specs.unit_counts.Counts as spec;

use crate::node_counts::unit_nodes;
use c_typed_tree::{TypedFn, TypedUnit};

/// The most statements, expressions and locals of a unit.
const MOST_NODES: u64 = 1 << 40;

fn has_few_locals(function: &TypedFn) -> bool
    ensures { result ≡ spec.has_few_locals function.now }
{
    function.locals.len() <= u32::MAX as usize
}

fn have_few_locals(functions: &[TypedFn]) -> bool
    ensures { result ≡ list_all spec.has_few_locals functions.now }
{
    for function in functions {
        if !has_few_locals(function) {
            return false;
        }
    }
    true
}

/// Whether there are fewer than 2^32 structs, functions and objects.
fn has_few_parts(unit: &TypedUnit) -> bool
    ensures structs { OnTrue result (length unit.now.structs < 2 ^ 32) }
    ensures functions { OnTrue result (length unit.now.functions < 2 ^ 32) }
    ensures globals { OnTrue result (length unit.now.globals < 2 ^ 32) }
    ensures more { OnFalse result (spec.CanBeCounted unit.now → ⊥) }
{
    if unit.structs.len() > u32::MAX as usize || unit.functions.len() > u32::MAX as usize {
        return false;
    }
    unit.globals.len() <= u32::MAX as usize
}

/// Whether there are at most 2^40 statements, expressions and locals.
fn has_few_nodes(unit: &TypedUnit) -> bool
    ensures few { OnTrue result (unit_nodes unit.now ≤ 2 ^ 40) }
    ensures more { OnFalse result (spec.CanBeCounted unit.now → ⊥) }
{
    unit_nodes(unit) <= MOST_NODES
}

/// Whether a unit can be counted: there are fewer than 2^32 structs, functions and objects of static storage, and
/// locals of each function, and at most 2^40 statements, expressions and locals.
#[tactic(auto, using(crate::proofs::UnitCounts::Counts::counted_parts))]
pub fn can_be_counted(unit: &TypedUnit) -> bool
    ensures yes { OnTrue result (spec.CanBeCounted unit.now) }
    ensures no { OnFalse result (spec.CanBeCounted unit.now → ⊥) }
{
    if !has_few_parts(unit) || !have_few_locals(unit.functions.as_slice()) {
        return false;
    }
    has_few_nodes(unit)
}
