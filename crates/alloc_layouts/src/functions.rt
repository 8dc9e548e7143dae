//! Functions over temporaries, one by one.

ghost use Rattle.std.specs.Prelude.{◌≡◌, ◌+◌, ◌<◌, ◌≤◌, ◌^◌, length, unwrap_or, IfOk, IfSome};
ghost use Rattle.std.specs.List.{position};
ghost use Rattle.mem_objects.specs.Layout.{ObjectsLieFrom, data_end};
ghost use Rattle.temp_ir.specs.Programs as spec;
ghost use Rattle.image_assembly.specs.Layouts.{first_label};
ghost use Rattle.alloc_layouts.specs.model.Parts.{CanBeLaidOut, IsLayoutBy};

use alloc_rules::Allocates;
use alpha_items::final_fn::FinalFn;
use image_assembly::{lay_out_one, read_numbers};
use mem_objects::{DataObject, MOST_DATA};
use pass_core::function::Func;
use std::alloc::{AllocError, Global};
use temp_ir::insn::TempInsn;

/// Whether a function is the one where a program begins.
fn is_main(f: &Func<TempInsn>) -> bool
    ensures { result ≡ spec.is_main f.now }
{
    f.name.as_slice() == b"main".as_slice()
}

/// The place of the function `main`.
fn main_place(functions: &[Func<TempInsn>]) -> Option<usize>
    ensures place { result ≡ position spec.is_main functions.now }
    ensures within { IfSome result (λ at. at < length functions.now) }
{
    functions.iter().position(|f| is_main(f))
}

/// The number of the function `main`.
pub(crate) fn main_number(functions: &[Func<TempInsn>]) -> u32
    requires { length functions.now < 2 ^ 31 }
    ensures number { result ≡ unwrap_or (position spec.is_main functions.now) 0 }
    ensures small { result < 2 ^ 31 }
{
    match main_place(functions) {
        Some(number) => number as u32,
        None => 0,
    }
}

/// One of so many functions, with its number and its first label, laid out by what an allocator gives for it, which is
/// let go. It fails only where memory is short.
pub(crate) fn lay_out<A: Allocates>(
    alloc: Global,
    allocator: &A,
    f: &Func<TempInsn>,
    globals: &[DataObject],
    functions: u32,
    number: u32,
    first: u32,
) -> Result<FinalFn, AllocError>
    requires can { CanBeLaidOut functions globals.now f.now }
    requires number { number < functions }
    requires first { first_label functions ≤ first }
    requires labels { first + (length f.now.blocks + 1) < 2 ^ 32 }
    requires layout { ObjectsLieFrom 0 globals.now }
    requires data_size { data_end globals.now ≤ MOST_DATA }
    ensures { IfOk result (IsLayoutBy A.gives globals.now number first f.now) }
{
    let a = allocator.allocation(alloc, f)?;
    read_numbers(&a);
    let made = lay_out_one(alloc, &a, globals, functions, number, first)?;
    Ok(made)
}
