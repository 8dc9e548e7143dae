//! The items of all functions, in one list, and the assembly.

ghost use Rattle.std.specs.Prelude.{◌+◌, ◌<◌, ◌≤◌, ◌^◌, All, IsTrue, length, sum_by, IfOk, OnOk};
ghost use Rattle.alpha_items.specs.Items.{is_name};
ghost use Rattle.mem_objects.specs.Layout.{ObjectsLieFrom, data_end};
ghost use Rattle.temp_ir.specs.Programs.{TempFn};
ghost use Rattle.image_assembly_laws.specs.allocation_laws.Laws.{HasFrame};
ghost use Rattle.alloc_layouts.specs.Layouts.{IsAssemblyBy};
ghost use Rattle.alloc_layouts.specs.model.Parts.{label_bound, CanBeLaidOut, AreLayoutsBy, AreItemsBy};

use crate::functions::{lay_out, main_number};
use alloc_rules::Allocates;
use alpha_items::asm::Asm;
use alpha_items::item::AsmItem;
use alpha_rt::items::routine_items;
use bk_containers::Seq;
use frame_emitter::insns::FUNCTIONS;
use image_assembly::{start_piece, with_data};
use image_assembly_laws::allocation_laws::laws::{allocations_can_be_assembled, allocations_fit};
use image_assembly_laws::laws::assemblies_are_whole;
use mem_objects::{DataObject, MOST_DATA};
use pass_core::function::Func;
use std::alloc::{AllocError, Global};
use temp_ir::insn::TempInsn;
use temp_ir::program::TempProgram;

/// Puts the items of functions behind others. Each is laid out with its number, and with labels from the end of those
/// of the one before it, and let go. It fails only where memory is short.
#[tactic(auto, using(crate::proofs::Turns::few_functions, crate::proofs::Turns::first_turn))]
fn lay_out_all<A: Allocates>(
    alloc: Global,
    allocator: &A,
    items: &mut Vec<AsmItem>,
    functions: Seq<Func<TempInsn>>,
    globals: &[DataObject],
) -> Result<(), AllocError>
    requires can { All (CanBeLaidOut (length functions) globals.now) functions }
    requires labels { sum_by label_bound functions < 2 ^ 30 }
    requires layout { ObjectsLieFrom 0 globals.now }
    requires data_size { data_end globals.now ≤ MOST_DATA }
    ensures { OnOk result (AreLayoutsBy A.gives globals.now functions items.old.items items.new.items) }
{
    let count = functions.len() as u32;
    let mut number = 0;
    let mut first = FUNCTIONS + count;
    for f in Seq::into_vec(functions) {
        let mut made = lay_out(alloc, allocator, &f, globals, count, number, first)?;
        items.append(&mut made.items)?;
        let labels = f.blocks.len() as u32 + 1;
        number += 1;
        first += labels;
    }
    Ok(())
}

/// All items: the start piece, which calls `main`, the functions in order, and the division routines. It fails only
/// where memory is short.
#[tactic(auto, using(crate::proofs::Turns::few_functions))]
fn items_of<A: Allocates>(
    alloc: Global,
    allocator: &A,
    functions: Seq<Func<TempInsn>>,
    globals: &[DataObject],
) -> Result<Vec<AsmItem>, AllocError>
    requires can { All (CanBeLaidOut (length functions) globals.now) functions }
    requires labels { sum_by label_bound functions < 2 ^ 30 }
    requires layout { ObjectsLieFrom 0 globals.now }
    requires data_size { data_end globals.now ≤ MOST_DATA }
    ensures { IfOk result (λ items. AreItemsBy A.gives globals.now functions items.items) }
{
    let main = main_number(functions.as_slice());
    let mut items = Vec::from_array(alloc, start_piece(main))?;
    lay_out_all(alloc, allocator, &mut items, functions, globals)?;
    let mut routines = routine_items(alloc)?;
    items.append(&mut routines)?;
    Ok(items)
}

/// The assembly of a program by what an allocator gives, with its functions laid out in order: what `gather` gives of
/// them. Each function is allocated, laid out and let go before the next one, so that there is one allocation at a
/// time, and the items of a function are moved and not copied. It fails only where memory is short.
pub fn assemble_in_turn<A: Allocates>(
    alloc: Global,
    allocator: &A,
    program: TempProgram,
) -> Result<Asm, AllocError>
    requires frames { All HasFrame program.functions }
    requires names { All (λ (f : TempFn). IsTrue (is_name f.name)) program.functions }
    requires labels { sum_by (λ (f : TempFn). length f.blocks + 2) program.functions < 2 ^ 30 }
    requires data_size { data_end program.globals ≤ MOST_DATA }
    ensures { IfOk result (IsAssemblyBy A.gives program) }
{
    allocations_fit();
    allocations_can_be_assembled();
    assemblies_are_whole();
    let TempProgram { functions, globals } = program;
    let items = items_of(alloc, allocator, functions, globals.as_slice())?;
    let asm = with_data(alloc, items, globals.as_slice())?;
    Ok(asm)
}
