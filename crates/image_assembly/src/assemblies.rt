//! The items of an assembly, and the assembly.

ghost use Rattle.std.specs.Prelude.{◌≡◌, ◌<◌, ◌≤◌, ◌^◌, [], ◌++◌, length, IfOk, IfSome, OnOk};
ghost use Rattle.std.specs.List.{position};
ghost use Rattle.alpha_items.specs.Assembly.{IsWhole};
ghost use Rattle.alpha_rt.specs.Items.{all_items};
ghost use Rattle.mem_objects.specs.Globals.{AreLawful};
ghost use Rattle.mem_objects.specs.Layout.{data_end};
ghost use Rattle.image_theorem.specs.program_images.Programs.{start_items};
ghost use Rattle.image_assembly.specs.Assemblies as spec;
ghost use Rattle.image_assembly.specs.Assemblies.{whole_assembly, final_items, main_of};

use crate::globals::{bytes_of, fixes_of};
use alpha_isa::insn::{BranchOp, Fields, Insn32, MemoryOp, Operand, OperateOp};
use alpha_items::asm::Asm;
use alpha_items::final_fn::FinalFn;
use alpha_items::item::AsmItem;
use alpha_rt::items::routine_items;
use frame_emitter::insns::FUNCTIONS;
use mem_objects::{DataObject, MOST_DATA};
use std::alloc::{AllocError, Global};

/// Whether a function is the one where a program begins.
fn is_main(f: &FinalFn) -> bool
    ensures { result ≡ spec.is_main f.now }
{
    f.name.as_slice() == b"main".as_slice()
}

/// The place of the function `main`.
fn main_place(finals: &[FinalFn]) -> Option<usize>
    ensures place { result ≡ position spec.is_main finals.now }
    ensures within { IfSome result (λ at. at < length finals.now) }
{
    finals.iter().position(|f| is_main(f))
}

/// The number of the function `main`.
fn main_number(finals: &[FinalFn]) -> u32
    requires { length finals.now < 2 ^ 31 }
    ensures number { result ≡ main_of finals.now }
    ensures small { result < 2 ^ 31 }
{
    match main_place(finals) {
        Some(number) => number as u32,
        None => 0,
    }
}

/// The piece that begins a run: it calls the function with a number, and ends with the status that this returns.
pub fn start_piece(main: u32) -> [AsmItem; 5]
    requires { main < 2 ^ 31 }
    ensures { result ≡ start_items main [] }
{
    [
        AsmItem::Label(0),
        AsmItem::Branch {
            op: BranchOp::Bsr,
            ra: 26,
            label: FUNCTIONS + main,
        },
        AsmItem::Plain(Insn32 {
            fields: Fields::Operate {
                op: OperateOp::Bis,
                ra: 31,
                rb: Operand::Reg(0),
                rc: 16,
            },
        }),
        AsmItem::Plain(Insn32 {
            fields: Fields::Memory {
                op: MemoryOp::Lda,
                ra: 0,
                rb: 31,
                disp: 1,
            },
        }),
        AsmItem::Plain(Insn32 {
            fields: Fields::Pal { function: 131 },
        }),
    ]
}

/// That piece as a list. It fails only where memory is short.
fn start_of(alloc: Global, finals: &[FinalFn]) -> Result<Vec<AsmItem>, AllocError>
    requires { length finals.now < 2 ^ 31 }
    ensures { IfOk result (λ items. items.items ≡ start_items (main_of finals.now) []) }
{
    Ok(Vec::from_array(alloc, start_piece(main_number(finals)))?)
}

/// Puts copies of items behind others. It fails only where memory is short.
fn push_items(items: &mut Vec<AsmItem>, more: &[AsmItem]) -> Result<(), AllocError>
    ensures { OnOk result (items.new.items ≡ items.old.items ++ more.now) }
{
    for item in more {
        items.push(item.copy()?)?;
    }
    Ok(())
}

/// Puts copies of the items of functions behind others. It fails only where memory is short.
#[tactic(auto, using(crate::proofs::Loops::functions_next, crate::proofs::Loops::functions_end))]
fn push_functions(items: &mut Vec<AsmItem>, finals: &[FinalFn]) -> Result<(), AllocError>
    ensures { OnOk result (items.new.items ≡ items.old.items ++ final_items finals.now) }
{
    for f in finals {
        push_items(items, f.items.as_slice())?;
    }
    Ok(())
}

/// All items. It fails only where memory is short.
#[tactic(auto, using(crate::proofs::Loops::pieces_joined))]
fn items_of(alloc: Global, finals: &[FinalFn]) -> Result<Vec<AsmItem>, AllocError>
    requires { length finals.now < 2 ^ 31 }
    ensures { IfOk result (λ items.
        items.items ≡ start_items (main_of finals.now) (final_items finals.now ++ all_items)) }
{
    let mut items = start_of(alloc, finals)?;
    push_functions(&mut items, finals)?;
    let mut routines = routine_items(alloc)?;
    items.append(&mut routines)?;
    Ok(items)
}

/// The assembly of all items and the data of objects of static storage, which are whole together. It fails only where
/// memory is short.
#[tactic(auto, using(crate::proofs::Bounds::lie, crate::proofs::Bounds::small))]
pub fn with_data(
    alloc: Global,
    items: Vec<AsmItem>,
    globals: &[DataObject],
) -> Result<Asm, AllocError>
    requires lawful { ∥ AreLawful globals.now ∥₁ }
    requires data_size { data_end globals.now ≤ MOST_DATA }
    requires whole { IsWhole (spec.with_data items.items globals.now) }
    ensures { IfOk result (λ asm. asm ≡ spec.with_data items.items globals.now) }
{
    let bytes = bytes_of(alloc, globals)?;
    let fixes = fixes_of(alloc, globals)?;
    Ok(Asm::new(items, bytes, fixes))
}

/// The assembly of a program: the start piece, which calls `main`, its functions in order, the division routines, and
/// the data of its objects of static storage. Together they are whole. It fails only where memory is short.
pub fn gather(alloc: Global, finals: &[FinalFn], globals: &[DataObject]) -> Result<Asm, AllocError>
    requires functions { length finals.now < 2 ^ 31 }
    requires lawful { ∥ AreLawful globals.now ∥₁ }
    requires data_size { data_end globals.now ≤ MOST_DATA }
    requires whole { IsWhole (whole_assembly finals.now globals.now) }
    ensures { IfOk result (λ asm. asm ≡ whole_assembly finals.now globals.now) }
{
    let items = items_of(alloc, finals)?;
    with_data(alloc, items, globals)
}
