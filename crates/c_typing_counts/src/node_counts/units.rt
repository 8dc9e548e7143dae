//! The statements, expressions and locals of a unit.

ghost use Rattle.std.specs.Prelude.{◌≡◌, ◌-◌, ◌^◌, min};
ghost use Rattle.c_typed_tree.specs.Counts.{function_nodes};
ghost use Rattle.c_typed_tree.specs.Lawful.{unit_nodes};

use crate::node_counts::statements::stmt_nodes;
use c_typed_tree::{TypedFn, TypedUnit};

/// The locals of a function, and the statements and expressions of its body.
fn function_nodes(function: &TypedFn) -> u64
    ensures { result ≡ min (function_nodes function.now) (2 ^ 64 - 1) }
{
    (function.locals.len() as u64).saturating_add(stmt_nodes(&function.body))
}

/// The statements, expressions and locals of all functions.
#[tactic(auto, using(crate::proofs::NodeCounts::Counts::functions_end))]
pub fn unit_nodes(unit: &TypedUnit) -> u64
    ensures { result ≡ min (unit_nodes unit.now) (2 ^ 64 - 1) }
{
    let mut total = 0u64;
    for function in unit.functions.as_slice() {
        total = total.saturating_add(function_nodes(function));
    }
    total
}
