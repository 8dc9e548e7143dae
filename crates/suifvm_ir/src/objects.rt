//! Whether what an address names is there.

ghost use Rattle.std.specs.Prelude.{◌≡◌, slice_get};
ghost use Rattle.suifvm_ir.specs.Programs as programs;

use crate::insn::VmObject;
use mem_objects::DataObject;
use pass_core::function::MemoryLocal;

/// Whether an object of static storage is there and has so many bytes.
pub fn global_reaches(globals: &[DataObject], global: usize, plus: u64) -> bool
    ensures { result ≡ programs.global_reaches plus (slice_get globals.now global) }
{
    match globals.get(global) {
        None => false,
        Some(object) => plus <= object.size,
    }
}

/// Whether a memory local is there and has so many bytes.
pub fn local_reaches(objects: &[MemoryLocal], local: usize, plus: u64) -> bool
    ensures { result ≡ programs.local_reaches plus (slice_get objects.now local) }
{
    match objects.get(local) {
        None => false,
        Some(object) => plus <= object.size,
    }
}

/// Whether an object of static storage or a memory local is there and has so many bytes.
pub fn place_reaches(
    globals: &[DataObject],
    objects: &[MemoryLocal],
    plus: u64,
    place: VmObject,
) -> bool
    ensures { result ≡ programs.place_reaches globals.now objects.now plus place }
{
    match place {
        VmObject::Global(global) => global_reaches(globals, global as usize, plus),
        VmObject::Local(local) => local_reaches(objects, local as usize, plus),
    }
}
