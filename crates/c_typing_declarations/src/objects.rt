//! Objects.

ghost use Rattle.std.specs.Prelude.{◌≡◌, OnOk, Some};
ghost use Rattle.c_typing_state.specs.Checks.{Finds};
ghost use Rattle.c_typing_declarations.specs.Objects as spec;
ghost use Rattle.c_typing_declarations.specs.Walk.{declare};
ghost use Rattle.c_typing_initialisers.specs.Unfit.{judge_init, faulty_init};

use crate::walk::{UnitSoFar, add_object, check_main, declare, keep_cells};
use c_tree::{Init, Storage};
use c_typed_tree::CType;
use c_typing_definitions::Definitions;
use c_typing_faults::Kind;
use c_typing_initialisers::{judge_init, length_given, object_cells, unfit};
use c_typing_rules::c_typing_declared_types::{DeclaredType, array_of};
use c_typing_state::{Env, Notes, note};
use c_typing_struct_bodies::is_member;
use c_typing_unit_names::NameDeclaration;
use std::alloc::{AllocError, Global};

fn no_object(notes: &mut Notes<'_>, at: u32) -> Result<Option<CType>, AllocError>
    ensures { Finds (spec.no_object_type at notes.old) result notes.new }
{
    note(notes, at, Kind::BadType)?;
    Ok(None)
}

/// The type of an object, which may be none of objects.
fn object_type(notes: &mut Notes<'_>, at: u32, ty: CType) -> Result<Option<CType>, AllocError>
    ensures { Finds (spec.object_type at ty notes.old) result notes.new }
{
    if is_member(notes.structs.as_slice(), &ty) {
        return Ok(Some(ty));
    }
    no_object(notes, at)
}

fn type_there(
    notes: &mut Notes<'_>,
    at: u32,
    made: Option<DeclaredType>,
) -> Result<Option<CType>, AllocError>
    ensures { Finds (spec.type_there at made notes.old) result notes.new }
{
    match made {
        None => no_object(notes, at),
        Some(made) => match made {
            DeclaredType::Value(ty) => object_type(notes, at, ty),
            DeclaredType::Unsized(_) => no_object(notes, at),
            DeclaredType::Function { .. } => no_object(notes, at),
        },
    }
}

/// An array with the length that its initialiser gives.
fn array_type(
    alloc: Global,
    notes: &mut Notes<'_>,
    at: u32,
    element: CType,
    length: u64,
) -> Result<Option<CType>, AllocError>
    ensures { Finds (spec.array_type at element length notes.old) result notes.new }
{
    let element = DeclaredType::Value(element);
    let made = array_of(alloc, notes.structs.as_slice(), element, Some(length))?;
    type_there(notes, at, made)
}

/// Judges what an initialiser is made of, where what it initialises has a fault. It fails only where memory is short.
pub fn judge_parts<'a>(
    alloc: Global,
    env: &mut Env<'a>,
    notes: &mut Notes<'a>,
    init: &'a Init,
) -> Result<(), AllocError>
    ensures { OnOk result ((env.new, notes.new) ≡ (judge_init init.now (env.old, notes.old)).1) }
{
    judge_init(alloc, init, env, notes)?;
    Ok(())
}

fn judge_optional<'a>(
    alloc: Global,
    env: &mut Env<'a>,
    notes: &mut Notes<'a>,
    init: &'a Option<Init>,
) -> Result<(), AllocError>
    ensures { OnOk result ((env.new, notes.new) ≡ spec.init_judged init.now (env.old, notes.old)) }
{
    match init {
        None => Ok(()),
        Some(init) => judge_parts(alloc, env, notes, init),
    }
}

/// Judges an initialiser that has this fault, if nothing in it has one.
pub(crate) fn refuse_init<'a>(
    alloc: Global,
    env: &mut Env<'a>,
    notes: &mut Notes<'a>,
    kind: Kind,
    init: &'a Init,
) -> Result<(), AllocError>
    ensures { OnOk result ((env.new, notes.new) ≡ (faulty_init kind init.now (env.old, notes.old)).1) }
{
    unfit(alloc, kind, init, env, notes)?;
    Ok(())
}

/// Judges the initialiser of an object, and keeps what it gives.
fn fill<'a>(
    alloc: Global,
    unit: &mut UnitSoFar<'a>,
    env: &mut Env<'a>,
    notes: &mut Notes<'a>,
    name: &[u8],
    ty: &CType,
    init: &'a Option<Init>,
) -> Result<(), AllocError>
    ensures { OnOk result ((unit.new, (env.new, notes.new))
        ≡ spec.init_filled name.now ty.now init.now (unit.old, (env.old, notes.old))) }
{
    match init {
        None => Ok(()),
        Some(init) => {
            let cells = object_cells(alloc, ty, init, env, notes)?;
            keep_cells(alloc, unit, env, name, cells);
            Ok(())
        }
    }
}

/// Declares an object whose type has a fault, and judges what its initialiser is made of. It fails only where memory is
/// short.
pub fn declare_faulty<'a>(
    alloc: Global,
    definitions: &Definitions<'_>,
    unit: &mut UnitSoFar<'a>,
    env: &mut Env<'a>,
    notes: &mut Notes<'a>,
    at: u32,
    name: &'a [u8],
    init: &'a Option<Init>,
) -> Result<(), AllocError>
    ensures { OnOk result ((unit.new, (env.new, notes.new))
        ≡ spec.faulty_object definitions.now at name.now init.now (unit.old, (env.old, notes.old))) }
{
    declare(alloc, definitions, unit, env, notes, at, name, None)?;
    judge_optional(alloc, env, notes, init)
}

fn declare_typed<'a>(
    alloc: Global,
    definitions: &Definitions<'_>,
    unit: &mut UnitSoFar<'a>,
    env: &mut Env<'a>,
    notes: &mut Notes<'a>,
    at: u32,
    name: &'a [u8],
    ty: &CType,
    has_value: bool,
) -> Result<(), AllocError>
    ensures { OnOk result ((unit.new, (env.new, notes.new))
        ≡ declare definitions.now at name.now (Some (spec.object_declared ty.now has_value))
        (unit.old, (env.old, notes.old))) }
{
    let ty = DeclaredType::Value(ty.copy(alloc)?);
    let new = NameDeclaration {
        is_typedef: false,
        ty,
        has_value,
    };
    declare(alloc, definitions, unit, env, notes, at, name, Some(new))
}

/// Declares an object of a type, if that has no fault.
fn declare_object<'a>(
    alloc: Global,
    definitions: &Definitions<'_>,
    unit: &mut UnitSoFar<'a>,
    env: &mut Env<'a>,
    notes: &mut Notes<'a>,
    at: u32,
    name: &'a [u8],
    storage: Option<Storage>,
    init: &'a Option<Init>,
    ty: Option<CType>,
) -> Result<(), AllocError>
    ensures { OnOk result ((unit.new, (env.new, notes.new))
        ≡ spec.object_by_type definitions.now at name.now storage init.now ty (unit.old, (env.old, notes.old))) }
{
    match ty {
        None => declare_faulty(alloc, definitions, unit, env, notes, at, name, init),
        Some(ty) => {
            check_main(notes, storage, at, name)?;
            declare_typed(
                alloc,
                definitions,
                unit,
                env,
                notes,
                at,
                name,
                &ty,
                init.is_some(),
            )?;
            add_object(alloc, unit, env, name, &ty)?;
            fill(alloc, unit, env, notes, name, &ty, init)
        }
    }
}

/// Declares an array without a length, which has that of its initialiser (C99 6.7.8); without one it is a fault. It
/// fails only where memory is short.
pub fn declare_array<'a>(
    alloc: Global,
    definitions: &Definitions<'_>,
    unit: &mut UnitSoFar<'a>,
    env: &mut Env<'a>,
    notes: &mut Notes<'a>,
    at: u32,
    name: &'a [u8],
    storage: Option<Storage>,
    init: &'a Option<Init>,
    element: CType,
) -> Result<(), AllocError>
    ensures { OnOk result ((unit.new, (env.new, notes.new))
        ≡ spec.array_object definitions.now at name.now storage init.now element (unit.old, (env.old, notes.old))) }
{
    match init {
        None => {
            let ty = no_object(notes, at)?;
            declare_object(
                alloc,
                definitions,
                unit,
                env,
                notes,
                at,
                name,
                storage,
                init,
                ty,
            )
        }
        Some(given) => {
            let length = length_given(alloc, &element, given)?;
            let ty = array_type(alloc, notes, at, element, length)?;
            declare_object(
                alloc,
                definitions,
                unit,
                env,
                notes,
                at,
                name,
                storage,
                init,
                ty,
            )
        }
    }
}

/// Declares an object of a type, and judges its initialiser; a type that no object may have is a fault (C99 6.7). It
/// fails only where memory is short.
pub fn declare_value<'a>(
    alloc: Global,
    definitions: &Definitions<'_>,
    unit: &mut UnitSoFar<'a>,
    env: &mut Env<'a>,
    notes: &mut Notes<'a>,
    at: u32,
    name: &'a [u8],
    storage: Option<Storage>,
    init: &'a Option<Init>,
    ty: CType,
) -> Result<(), AllocError>
    ensures { OnOk result ((unit.new, (env.new, notes.new))
        ≡ spec.value_object definitions.now at name.now storage init.now ty (unit.old, (env.old, notes.old))) }
{
    let ty = object_type(notes, at, ty)?;
    declare_object(
        alloc,
        definitions,
        unit,
        env,
        notes,
        at,
        name,
        storage,
        init,
        ty,
    )
}
