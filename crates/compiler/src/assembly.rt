//! The assembly of a program, by an allocator.

ghost use Rattle.std.specs.Prelude.{IfOk};
ghost use Rattle.compiler.specs.Made.{gives};
ghost use Rattle.compiler.specs.model.Parts.{AreAssemblyPartsOf};
ghost use Rattle.compiler.specs.model.Stages.{CanBeLaidOut, ProgramCanBeAssembled, IsAssemblyOf};

use crate::built::{AssemblyParts, WantedParts};
use alloc_layouts::assemble_in_turn;
use alloc_model::allocation::Allocation;
use alloc_plain::PlainAllocator;
use alloc_rules::{Allocates, allocate};
use alpha_items::asm::Asm;
use binpack_scan::BinpackAllocator;
use call_words::compile_options::Allocator;
use image_assembly::{gather, lay_out};
use image_assembly_laws::allocation_laws::laws::layout_keeps_count;
use image_assembly_laws::laws::assemblies_are_whole;
use std::alloc::{AllocError, Global};
use temp_ir::program::TempProgram;

/// The assembly of a program by an allocator that is chosen.
pub(crate) fn assemble_by_choice(
    alloc: Global,
    temps: TempProgram,
    allocator: Allocator,
    wanted: WantedParts,
) -> Result<AssemblyParts, AllocError>
    requires { ProgramCanBeAssembled temps }
    ensures { IfOk result (AreAssemblyPartsOf (gives allocator) temps wanted) }
{
    match allocator {
        Allocator::Plain => assemble_by(alloc, &PlainAllocator, temps, wanted),
        Allocator::Binpack => assemble_by(alloc, &BinpackAllocator, temps, wanted),
    }
}

/// The assembly of a program by an allocator. Where the image alone is wanted, each function is let go with its
/// allocation before the next one is allocated.
fn assemble_by<A: Allocates>(
    alloc: Global,
    allocator: &A,
    temps: TempProgram,
    wanted: WantedParts,
) -> Result<AssemblyParts, AllocError>
    requires { ProgramCanBeAssembled temps }
    ensures { IfOk result (AreAssemblyPartsOf A.gives temps wanted) }
{
    match wanted {
        WantedParts::Everything => {
            let allocations = allocate(alloc, allocator, &temps)?;
            let asm = assembly_of(alloc, &temps, allocations.as_slice())?;
            Ok(AssemblyParts {
                temps: Some(temps),
                allocations: Some(allocations),
                asm,
            })
        }
        WantedParts::Image => {
            let asm = assemble_in_turn(alloc, allocator, temps)?;
            Ok(AssemblyParts {
                temps: None,
                allocations: None,
                asm,
            })
        }
    }
}

/// Lays the functions out in their frames, and gathers one assembly.
fn assembly_of(
    alloc: Global,
    temps: &TempProgram,
    allocations: &[Allocation],
) -> Result<Asm, AllocError>
    requires { CanBeLaidOut temps.now allocations.now }
    ensures { IfOk result (λ asm. IsAssemblyOf temps.now allocations.now asm) }
{
    let finals = lay_out(alloc, allocations, temps.globals.as_slice())?;
    layout_keeps_count();
    assemblies_are_whole();
    gather(alloc, finals.as_slice(), temps.globals.as_slice())
}
