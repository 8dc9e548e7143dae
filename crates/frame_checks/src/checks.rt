//! All that is asked.

ghost use Rattle.std.specs.Prelude.{◌≡◌, ◌↔◌, IsTrue};
ghost use Rattle.frame_layout.specs.Conditions.{CanBeLaidOut};
ghost use Rattle.frame_checks.specs.model.Tests as tests;
ghost use Rattle.frame_checks.specs.model.Tests.{Numbers};

use crate::insns::all_ask;
use crate::objects::{are_small, lie_in_order};
use alloc_model::allocation::Allocation;
use frame_emitter::insns::FUNCTIONS;
use mem_objects::DataObject;
use suifvm_ir::program::MOST_PROGRAM_SIZE;

/// Whether labels and temporaries are few enough.
fn numbers_fit(a: &Allocation, number: u32, first_label: u32) -> bool
    ensures { IsTrue result ↔ Numbers a.now number first_label }
{
    let count = a.func.blocks.as_slice().len() as u64;
    u64::from(FUNCTIONS) + u64::from(number) < u64::from(first_label)
        && u64::from(first_label) + count < u64::from(u32::MAX)
        && a.func.temps <= MOST_PROGRAM_SIZE
}

/// Whether objects lie where they may, and each instruction is as is asked.
fn names_fit(a: &Allocation, globals: &[DataObject], first_label: u32) -> bool
    ensures { result ≡ tests.names_fit a.now globals.now first_label }
{
    let objects = a.func.objects.as_slice();
    lie_in_order(globals)
        && are_small(objects)
        && all_ask(globals, objects, first_label, a.func.blocks.as_slice())
}

/// Whether a function with an allocation, a number and a first label can be laid out, as far as that goes by numbers.
#[tactic(auto, using(crate::proofs::Asked::laid_out))]
pub fn can_be_laid_out(
    a: &Allocation,
    globals: &[DataObject],
    number: u32,
    first_label: u32,
) -> bool
    ensures { IsTrue result ↔ CanBeLaidOut a.now globals.now number first_label }
{
    let numbers = numbers_fit(a, number, first_label);
    let names = names_fit(a, globals, first_label);
    numbers && names
}
