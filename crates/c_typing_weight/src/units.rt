//! The weight of functions and units, and the data that a unit needs.

ghost use Rattle.std.specs.Prelude.{◌≡◌, ◌-◌, ◌^◌, min};
ghost use Rattle.c_typed_tree.specs.Weight.{function_weight, unit_weight};
ghost use Rattle.c_typed_tree.specs.Rooms.{greatest_locals, data_size};

use crate::expressions::one_and;
use crate::locals::locals_bytes;
use crate::statements::stmt_weight;
use c_typed_tree::{StructDef, TypedFn, TypedUnit};
use mem_objects::data_end;

/// The weight of a function, over its parameters and its body.
pub fn function_weight(function: &TypedFn, structs: &[StructDef]) -> u64
    ensures { result ≡ min (function_weight structs.now function.now) (2 ^ 64 - 1) }
{
    u64::from(function.params).saturating_add(stmt_weight(&function.body, structs))
}

/// The weight of a unit.
#[tactic(auto, using(crate::proofs::Weights::functions_end))]
pub fn weight(unit: &TypedUnit) -> u64
    ensures { result ≡ min (unit_weight unit.now) (2 ^ 64 - 1) }
{
    let mut total = 1u64;
    for function in unit.functions.as_slice() {
        let own = function_weight(function, unit.structs.as_slice());
        total = total.saturating_add(one_and(own, 0));
    }
    total
}

/// The greatest of the bytes that the locals of one function take.
fn greatest_locals(functions: &[TypedFn], structs: &[StructDef]) -> u64
    ensures { result ≡ min (greatest_locals structs.now functions.now) (2 ^ 64 - 1) }
{
    let mut greatest = 0u64;
    for function in functions {
        greatest = greatest.max(locals_bytes(function, structs));
    }
    greatest
}

/// The bytes of data that a unit needs: the end of its data, or the bytes of one function's locals where those are
/// more.
pub fn data_size(unit: &TypedUnit) -> u64
    ensures { result ≡ min (data_size unit.now) (2 ^ 64 - 1) }
{
    let end = data_end(unit.globals.as_slice());
    end.max(greatest_locals(unit.functions.as_slice(), unit.structs.as_slice()))
}
