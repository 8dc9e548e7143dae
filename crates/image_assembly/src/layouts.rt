//! The functions of a program, laid out one behind the other.

ghost use Rattle.std.specs.Prelude.{◌≡◌, ◌+◌, ◌-◌, ◌<◌, ◌≤◌, ◌^◌, All, length, IfOk, OnOk};
ghost use Rattle.mem_objects.specs.Layout.{ObjectsLieFrom, data_end};
ghost use Rattle.pass_core.specs.Functions.{AllInsns};
ghost use Rattle.alloc_model.specs.declared.allocation.Allocation.{Allocation};
ghost use Rattle.frame_bounds.specs.frame_ranges.Ranges.{HasSmallNumbers};
ghost use Rattle.image_assembly.specs.Layouts.{first_label, end_label, label_count, FitsProgram, FunctionIsLaidOut, FunctionsAreLaidOut};

use crate::numbers::read_numbers;
use alloc_model::allocation::Allocation;
use alpha_items::final_fn::FinalFn;
use frame_emitter::insns::FUNCTIONS;
use frame_layout::finalise;
use mem_objects::{DataObject, MOST_DATA};
use std::alloc::{AllocError, Global};

/// How many labels the blocks and the exit part of a function have.
fn label_count(a: &Allocation) -> u32
    ensures { result ≡ label_count a.now }
{
    a.func.blocks.len() as u32 + 1
}

/// One of so many functions, with its number and its first label, laid out. It fails only where memory is short.
pub fn lay_out_one(
    alloc: Global,
    a: &Allocation,
    globals: &[DataObject],
    functions: u32,
    number: u32,
    first: u32,
) -> Result<FinalFn, AllocError>
    requires fit { FitsProgram functions globals.now a.now }
    requires number { number < functions }
    requires first { first_label functions ≤ first }
    requires labels { first + label_count a.now < 2 ^ 32 }
    requires layout { ObjectsLieFrom 0 globals.now }
    requires data_size { data_end globals.now ≤ MOST_DATA }
    ensures { IfOk result (λ f. FunctionIsLaidOut globals.now number first a.now f) }
{
    finalise(alloc, a, globals, number, first)
}

/// The functions of a program, by an allocation for each, laid out beside its objects of static storage: each with its
/// number, and with labels for its blocks and its exit part from the end of those of the one before it. The numbers in
/// its instructions have the ranges of their types. It fails only where memory is short.
#[tactic(auto, using(crate::proofs::Follow::follow_more, crate::proofs::Follow::follow_all, crate::proofs::Follow::labels_more, crate::proofs::Follow::labels_small))]
pub fn lay_out(
    alloc: Global,
    allocations: &[Allocation],
    globals: &[DataObject],
) -> Result<Vec<FinalFn>, AllocError>
    requires fit { All (FitsProgram (length allocations.now) globals.now) allocations.now }
    requires labels { end_label allocations.now < 2 ^ 32 }
    requires layout { ObjectsLieFrom 0 globals.now }
    requires data_size { data_end globals.now ≤ MOST_DATA }
    ensures laid_out { IfOk result (λ finals. FunctionsAreLaidOut globals.now allocations.now finals.items) }
    ensures numbers { OnOk result (All (λ (a : Allocation). AllInsns HasSmallNumbers a.func.blocks) allocations.now) }
{
    let functions = allocations.len() as u32;
    let mut finals = Vec::new(alloc);
    let mut first = FUNCTIONS + functions;
    for number in 0..allocations.len() {
        let a = &allocations[number];
        read_numbers(a);
        let made = lay_out_one(alloc, a, globals, functions, number as u32, first)?;
        first += label_count(a);
        finals.push(made)?;
    }
    Ok(finals)
}
