//! What instructions do with memory: loads, stores and copies, and the objects of a call.

ghost use Rattle.std.specs.Prelude.{◌≡◌, ◌+◌, ◌<◌, ◌≤◌, ◌^◌, true, map, length, IfOk, OnOk, Some, None, if◌then◌else◌};
ghost use Rattle.std.specs.Bool.{OnFalse};
ghost use Rattle.mem_model.specs.Memory as mem;
ghost use Rattle.suifvm_ir.specs.Programs as programs;
ghost use Rattle.suifvm_operations.specs.Tidy.{MemoryIsTidy};
ghost use Rattle.suifvm_meaning.specs.Operations as operations;

use crate::numbers::memory_integer;
use crate::pointers::pointer_plus;
use bk_arithmetic::integer_type::IntegerType;
use mem_model::memory::Mem;
use mem_model::value::{MemFault, Ptr, Value};
use pass_core::function::MemoryLocal;
use std::alloc::AllocError;
use suifvm_ir::types::{Alignment, MemoryType};
use suifvm_meaning::answer::Answer;

/// The number of cells from which on an object is not made.
const MOST_CELLS: u64 = 1 << 63;

/// The number of objects from which on no more are made.
pub const MOST_OBJECTS: u64 = 1 << 63;

/// The bytes of an access.
fn access_bytes(ty: Option<IntegerType>) -> u32
    ensures value { result ≡ operations.access_bytes ty }
    ensures width { mem.IsWidth result }
    ensures pointer { operations.is_pointer_access ty ≡ true → result ≡ 8 }
{
    match ty {
        None => 8,
        Some(t) => u32::from(t.bytes()),
    }
}

/// Whether an access is one of a pointer.
fn is_pointer_access(ty: Option<IntegerType>) -> bool
    ensures { result ≡ operations.is_pointer_access ty }
{
    ty.is_none()
}

/// What was loaded, as a register holds it.
fn extend_word(ty: Option<IntegerType>, value: Value) -> Value
    ensures { result ≡ operations.extended_value ty value }
{
    match ty {
        None => value,
        Some(t) => match value {
            Value::Word(word) => Value::Word(t.extend(word)),
            Value::Address(_) => value,
            Value::Unset => value,
        },
    }
}

/// What comes of a load.
fn of_load(ty: Option<IntegerType>, loaded: Result<Value, MemFault>) -> Answer
    ensures { result ≡ operations.load_answer ty loaded }
{
    match loaded {
        Ok(value) => Answer::Gives(extend_word(ty, value)),
        Err(_) => Answer::Fails,
    }
}

/// A load from an address.
fn load_from(memory: &Mem, ty: Option<IntegerType>, p: Ptr) -> Answer
    ensures { result
        ≡ operations.load_answer ty
        (mem.load_at memory.now p (operations.access_bytes ty) (operations.is_pointer_access ty)) }
{
    of_load(ty, memory.load(p, access_bytes(ty), is_pointer_access(ty)))
}

/// `lod`: a load from a pointer moved by so many bytes.
pub fn load(memory: &Mem, ty: MemoryType, pointer: Value, plus: i64) -> Answer
    requires { MemoryIsTidy memory.now }
    ensures { result ≡ operations.loaded_answer memory.now ty pointer plus }
{
    match pointer_plus(memory, pointer, plus) {
        None => Answer::Fails,
        Some(Value::Address(p)) => load_from(memory, memory_integer(ty), p),
        Some(Value::Word(_)) => Answer::Fails,
        Some(Value::Unset) => Answer::Fails,
    }
}

/// Whether a value may be stored by a type.
fn is_storable(ty: Option<IntegerType>, value: Value) -> bool
    ensures value { result ≡ operations.is_storable ty value }
    ensures storable { result ≡ true → mem.IsStorable (operations.access_bytes ty) value }
{
    match value {
        Value::Word(_) => true,
        Value::Address(_) => ty.is_none(),
        Value::Unset => false,
    }
}

/// A store to an address. It answers whether it was done.
#[tactic(auto, using(crate::proofs::Tidiness::store_tidy, crate::proofs::Tidiness::store_count))]
fn store_to(memory: &mut Mem, ty: Option<IntegerType>, p: Ptr, value: Value) -> bool
    requires { MemoryIsTidy memory.old }
    ensures value { operations.store_through memory.old ty (Some (Value.Address p)) value
        ≡ (if result then Some memory.new else None) }
    ensures kept { OnFalse result (memory.new ≡ memory.old) }
    ensures tidy { MemoryIsTidy memory.new }
    ensures count { length memory.new ≡ length memory.old }
{
    if !is_storable(ty, value) {
        return false;
    }
    memory.store(p, access_bytes(ty), value).is_ok()
}

/// `str`: a store to a pointer moved by so many bytes. It answers whether it was done.
pub fn store(memory: &mut Mem, ty: MemoryType, pointer: Value, plus: i64, value: Value) -> bool
    requires { MemoryIsTidy memory.old }
    ensures value { operations.stored_memory memory.old ty pointer plus value
        ≡ (if result then Some memory.new else None) }
    ensures kept { OnFalse result (memory.new ≡ memory.old) }
    ensures tidy { MemoryIsTidy memory.new }
    ensures count { length memory.new ≡ length memory.old }
{
    match pointer_plus(memory, pointer, plus) {
        None => false,
        Some(Value::Address(p)) => store_to(memory, memory_integer(ty), p, value),
        Some(Value::Word(_)) => false,
        Some(Value::Unset) => false,
    }
}

/// An alignment in bytes.
fn bytes_of(align: Alignment) -> u32
    ensures { result ≡ programs.alignment_bytes align }
{
    match align {
        Alignment::One => 1,
        Alignment::Two => 2,
        Alignment::Four => 4,
        Alignment::Eight => 8,
    }
}

/// A copy from address to address. It answers whether it was done.
#[tactic(auto, using(crate::proofs::Tidiness::copy_tidy, crate::proofs::Tidiness::copy_count))]
fn copy_cells(memory: &mut Mem, to: Ptr, from: Ptr, size: u64, align: u32) -> bool
    requires { MemoryIsTidy memory.old }
    ensures value { operations.ok_of (mem.copy_at memory.old to from size align)
        ≡ (if result then Some memory.new else None) }
    ensures kept { OnFalse result (memory.new ≡ memory.old) }
    ensures tidy { MemoryIsTidy memory.new }
    ensures count { length memory.new ≡ length memory.old }
{
    memory.copy(to, from, size, align).is_ok()
}

/// `mcpy`: a copy of so many cells. It answers whether it was done.
pub fn copy(memory: &mut Mem, to: Value, from: Value, size: u64, align: Alignment) -> bool
    requires { MemoryIsTidy memory.old }
    ensures value { operations.copied_memory memory.old to from size (programs.alignment_bytes align)
        ≡ (if result then Some memory.new else None) }
    ensures kept { OnFalse result (memory.new ≡ memory.old) }
    ensures tidy { MemoryIsTidy memory.new }
    ensures count { length memory.new ≡ length memory.old }
{
    match to {
        Value::Address(p) => match from {
            Value::Address(q) => copy_cells(memory, p, q, size, bytes_of(align)),
            Value::Word(_) => false,
            Value::Unset => false,
        },
        Value::Word(_) => false,
        Value::Unset => false,
    }
}

/// Makes an object of so many cells, and answers its number: how many there were. Where memory is short, the memory is
/// as before.
#[tactic(auto, using(crate::proofs::Tidiness::begin_tidy))]
pub(crate) fn begin_object(memory: &mut Mem, size: u64, writable: bool) -> Result<u64, AllocError>
    requires { MemoryIsTidy memory.old }
    ensures number { IfOk result (λ id. id ≡ length memory.old) }
    ensures ok { OnOk result (memory.new ≡ mem.begin_object memory.old size writable) }
    ensures tidy { MemoryIsTidy memory.new }
{
    if size >= MOST_CELLS {
        return Err(AllocError);
    }
    memory.alloc_object(size, writable)
}

/// Makes the objects of a call. Where memory is short, some are made.
#[tactic(auto, using(crate::proofs::Lives::begin_next, crate::proofs::Lives::begin_end))]
pub fn begin_objects(memory: &mut Mem, objects: &[MemoryLocal]) -> Result<(), AllocError>
    requires { MemoryIsTidy memory.old }
    ensures ok { OnOk result (memory.new ≡ mem.begin_objects memory.old (map (λ o. o.size) objects.now)) }
    ensures tidy { MemoryIsTidy memory.new }
{
    for object in objects {
        begin_object(memory, object.size, true)?;
    }
    Ok(())
}

/// Ends an object, where it lives.
#[tactic(auto, using(crate::proofs::Tidiness::end_tidy, crate::proofs::Tidiness::end_gone))]
fn end_object(memory: &mut Mem, id: u64)
    requires { MemoryIsTidy memory.old }
    ensures value { memory.new ≡ mem.end_object memory.old id }
    ensures tidy { MemoryIsTidy memory.new }
{
    if memory.size_of(id).is_some() {
        memory.end_object(id);
    }
}

/// Ends so many objects, from a number on.
#[tactic(auto, using(crate::proofs::Lives::end_next, crate::proofs::Lives::end_none))]
pub fn end_objects(memory: &mut Mem, first: u64, count: u64)
    requires tidy { MemoryIsTidy memory.old }
    requires numbers { first + count ≤ 2 ^ 63 }
    ensures value { memory.new ≡ mem.end_objects memory.old first count }
    ensures tidy { MemoryIsTidy memory.new }
{
    for k in 0..count {
        end_object(memory, first + k);
    }
}
