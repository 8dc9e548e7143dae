//! The walk over declarations.

ghost use Rattle.std.specs.Prelude.{◌≡◌, OnOk, IfOk};
ghost use Rattle.std.specs.Option.{option_map};
ghost use Rattle.c_typing_state.specs.Checks.{Finds, each};
ghost use Rattle.c_typing_declarations.specs.Functions as functions;
ghost use Rattle.c_typing_units.specs.c_typing_externals.Externals as spec;

use c_tree::{Declaration, External, FunctionEnd, Init, Stmt, Storage, TypeNode};
use c_typed_tree::CType;
use c_typing_declarations::{
    UnitSoFar, declare, declare_array, declare_faulty, declare_function, declare_value,
    defined_type, function_type, judge_parts, keep_function, refuse_optional, refuse_value,
    see_main,
};
use c_typing_definitions::Definitions;
use c_typing_judgements::leaves::copy_types;
use c_typing_judgements::types::type_named;
use c_typing_rules::c_typing_declared_types::DeclaredType;
use c_typing_scopes::NameTable;
use c_typing_state::{Env, Notes};
use c_typing_statements::c_typing_function_bodies::{FunctionType, function};
use c_typing_struct_bodies::declared_type;
use c_typing_unit_names::NameDeclaration;
use std::alloc::{AllocError, Global};

fn typedef_of(ty: Option<DeclaredType>) -> Option<NameDeclaration>
    ensures { result ≡ option_map spec.typedef_of ty }
{
    match ty {
        None => None,
        Some(ty) => Some(NameDeclaration {
            is_typedef: true,
            ty,
            has_value: false,
        }),
    }
}

fn declare_typedef<'a>(
    alloc: Global,
    definitions: &Definitions<'_>,
    unit: &mut UnitSoFar<'a>,
    env: &mut Env<'a>,
    notes: &mut Notes<'a>,
    at: u32,
    name: &'a [u8],
    ty: Option<DeclaredType>,
) -> Result<(), AllocError>
    ensures { OnOk result ((unit.new, (env.new, notes.new))
        ≡ spec.typedef_declared definitions.now at name.now ty (unit.old, (env.old, notes.old))) }
{
    let ty = type_named(notes, at, ty)?;
    declare(
        alloc,
        definitions,
        unit,
        env,
        notes,
        at,
        name,
        typedef_of(ty),
    )
}

/// Declares a function that is not defined here.
fn declare_prototype<'a>(
    alloc: Global,
    definitions: &Definitions<'_>,
    unit: &mut UnitSoFar<'a>,
    env: &mut Env<'a>,
    notes: &mut Notes<'a>,
    at: u32,
    name: &'a [u8],
    storage: Option<Storage>,
    ty: DeclaredType,
) -> Result<(), AllocError>
    ensures { OnOk result ((unit.new, (env.new, notes.new))
        ≡ spec.prototype definitions.now at name.now storage ty (unit.old, (env.old, notes.old))) }
{
    let ty = function_type(notes, at, ty)?;
    declare_function(
        alloc,
        definitions,
        unit,
        env,
        notes,
        at,
        name,
        storage,
        false,
        ty,
    )
}

fn declare_object<'a>(
    alloc: Global,
    definitions: &Definitions<'_>,
    unit: &mut UnitSoFar<'a>,
    env: &mut Env<'a>,
    notes: &mut Notes<'a>,
    at: u32,
    name: &'a [u8],
    storage: Option<Storage>,
    init: &'a Option<Init>,
    ty: Option<DeclaredType>,
) -> Result<(), AllocError>
    ensures { OnOk result ((unit.new, (env.new, notes.new))
        ≡ spec.object_with definitions.now at name.now storage init.now ty (unit.old, (env.old, notes.old))) }
{
    match ty {
        None => declare_faulty(alloc, definitions, unit, env, notes, at, name, init),
        Some(ty) => match ty {
            DeclaredType::Value(ty) => {
                declare_value(
                    alloc,
                    definitions,
                    unit,
                    env,
                    notes,
                    at,
                    name,
                    storage,
                    init,
                    ty,
                )
            }
            DeclaredType::Unsized(element) => {
                declare_array(
                    alloc,
                    definitions,
                    unit,
                    env,
                    notes,
                    at,
                    name,
                    storage,
                    init,
                    element,
                )
            }
            DeclaredType::Function { result, parameters } => {
                let ty = DeclaredType::Function { result, parameters };
                declare_prototype(alloc, definitions, unit, env, notes, at, name, storage, ty)?;
                refuse_optional(alloc, env, notes, init)
            }
        },
    }
}

/// Notes whether a function that is defined is `main`, if its type has no fault.
fn see_definition(unit: &mut UnitSoFar<'_>, name: &[u8], ty: &Option<DeclaredType>)
    ensures { unit.new ≡ spec.main_with name.now ty.now unit.old }
{
    match ty {
        None => {}
        Some(ty) => see_main(unit, name, ty),
    }
}

fn type_of_definition(
    notes: &mut Notes<'_>,
    at: u32,
    node: &TypeNode,
    ty: Option<DeclaredType>,
) -> Result<Option<DeclaredType>, AllocError>
    ensures { Finds (each ty (functions.defined_type at node.now) notes.old) result notes.new }
{
    match ty {
        None => Ok(None),
        Some(ty) => defined_type(notes, at, node, ty),
    }
}

/// A copy of the type of a function.
fn copy_type(alloc: Global, of: &CType, parameters: &[CType]) -> Result<FunctionType, AllocError>
    ensures { IfOk result (λ r. r ≡ spec.type_with of.now parameters.now) }
{
    Ok(FunctionType {
        result: of.copy(alloc)?,
        parameters: copy_types(alloc, parameters)?,
    })
}

/// The type of a function that is defined, where its declaration has no fault.
fn type_of_function(
    alloc: Global,
    ty: &Option<DeclaredType>,
) -> Result<Option<FunctionType>, AllocError>
    ensures { IfOk result (λ r. r ≡ spec.type_of_function ty.now) }
{
    match ty {
        None => Ok(None),
        Some(ty) => match ty {
            DeclaredType::Value(_) => Ok(None),
            DeclaredType::Unsized(_) => Ok(None),
            DeclaredType::Function { result, parameters } => {
                Ok(Some(copy_type(alloc, result, parameters.as_slice())?))
            }
        },
    }
}

/// Judges the body of a function, and keeps the function. `of` is its type, where its declaration has no fault.
fn judge_body<'a>(
    alloc: Global,
    unit: &mut UnitSoFar<'a>,
    env: &mut Env<'a>,
    notes: &mut Notes<'a>,
    d: &'a Declaration,
    of: Option<FunctionType>,
    list: &'a [Stmt],
) -> Result<(), AllocError>
    ensures { OnOk result ((unit.new, (env.new, notes.new))
        ≡ spec.body_judged d.now of list.now (unit.old, (env.old, notes.old))) }
{
    let found = function(alloc, d, of, list, env, notes)?;
    keep_function(unit, env, d.name.as_slice(), found)
}

/// Declares a function that is defined here, and judges its body.
fn declare_definition<'a>(
    alloc: Global,
    definitions: &Definitions<'_>,
    unit: &mut UnitSoFar<'a>,
    env: &mut Env<'a>,
    notes: &mut Notes<'a>,
    d: &'a Declaration,
    storage: Option<Storage>,
    list: &'a [Stmt],
    ty: DeclaredType,
) -> Result<(), AllocError>
    ensures { OnOk result ((unit.new, (env.new, notes.new))
        ≡ spec.definition definitions.now d.now storage list.now ty (unit.old, (env.old, notes.old))) }
{
    let ty = function_type(notes, d.at, ty)?;
    see_definition(unit, d.name.as_slice(), &ty);
    let ty = type_of_definition(notes, d.at, &d.ty, ty)?;
    let of = type_of_function(alloc, &ty)?;
    declare_function(
        alloc,
        definitions,
        unit,
        env,
        notes,
        d.at,
        d.name.as_slice(),
        storage,
        true,
        ty,
    )?;
    judge_body(alloc, unit, env, notes, d, of, list)
}

fn function_with<'a>(
    alloc: Global,
    definitions: &Definitions<'_>,
    unit: &mut UnitSoFar<'a>,
    env: &mut Env<'a>,
    notes: &mut Notes<'a>,
    d: &'a Declaration,
    storage: Option<Storage>,
    end: &'a FunctionEnd,
    ty: DeclaredType,
) -> Result<(), AllocError>
    ensures { OnOk result ((unit.new, (env.new, notes.new))
        ≡ spec.external_function definitions.now d.now storage end.now ty (unit.old, (env.old, notes.old))) }
{
    let name = d.name.as_slice();
    match end {
        FunctionEnd::Nothing => {
            declare_prototype(
                alloc,
                definitions,
                unit,
                env,
                notes,
                d.at,
                name,
                storage,
                ty,
            )
        }
        FunctionEnd::Init(init) => {
            declare_prototype(
                alloc,
                definitions,
                unit,
                env,
                notes,
                d.at,
                name,
                storage,
                ty,
            )?;
            refuse_value(alloc, env, notes, init)
        }
        FunctionEnd::Body(list) => {
            declare_definition(
                alloc,
                definitions,
                unit,
                env,
                notes,
                d,
                storage,
                list.as_slice(),
                ty,
            )
        }
    }
}

/// Judges what stands behind a declaration of a function that has a fault.
fn judge_end<'a>(
    alloc: Global,
    env: &mut Env<'a>,
    notes: &mut Notes<'a>,
    d: &'a Declaration,
    end: &'a FunctionEnd,
) -> Result<(), AllocError>
    ensures { OnOk result ((env.new, notes.new) ≡ spec.end_judged d.now end.now (env.old, notes.old)) }
{
    match end {
        FunctionEnd::Nothing => Ok(()),
        FunctionEnd::Init(init) => judge_parts(alloc, env, notes, init),
        FunctionEnd::Body(list) => {
            function(alloc, d, None, list.as_slice(), env, notes)?;
            Ok(())
        }
    }
}

fn function_typed<'a>(
    alloc: Global,
    definitions: &Definitions<'_>,
    unit: &mut UnitSoFar<'a>,
    env: &mut Env<'a>,
    notes: &mut Notes<'a>,
    d: &'a Declaration,
    storage: Option<Storage>,
    end: &'a FunctionEnd,
    ty: Option<DeclaredType>,
) -> Result<(), AllocError>
    ensures { OnOk result ((unit.new, (env.new, notes.new))
        ≡ spec.function_typed definitions.now d.now storage end.now ty (unit.old, (env.old, notes.old))) }
{
    match ty {
        None => {
            declare(
                alloc,
                definitions,
                unit,
                env,
                notes,
                d.at,
                d.name.as_slice(),
                None,
            )?;
            judge_end(alloc, env, notes, d, end)
        }
        Some(ty) => { function_with(alloc, definitions, unit, env, notes, d, storage, end, ty) }
    }
}

/// A declaration at file scope.
fn external<'a>(
    alloc: Global,
    definitions: &Definitions<'_>,
    unit: &mut UnitSoFar<'a>,
    defined: &mut NameTable<'a, ()>,
    env: &mut Env<'a>,
    notes: &mut Notes<'a>,
    item: &'a External,
) -> Result<(), AllocError>
    ensures { OnOk result ((unit.new, (defined.new, (env.new, notes.new)))
        ≡ spec.walk_external definitions.now item.now (unit.old, (defined.old, (env.old, notes.old)))) }
{
    match item {
        External::Typedef(d) => {
            let ty = declared_type(alloc, &d.ty, defined, env, notes, d.at)?;
            declare_typedef(
                alloc,
                definitions,
                unit,
                env,
                notes,
                d.at,
                d.name.as_slice(),
                ty,
            )
        }
        External::Object {
            declaration: d,
            storage,
            init,
        } => {
            let ty = declared_type(alloc, &d.ty, defined, env, notes, d.at)?;
            let name = d.name.as_slice();
            declare_object(
                alloc,
                definitions,
                unit,
                env,
                notes,
                d.at,
                name,
                *storage,
                init,
                ty,
            )
        }
        External::Function {
            declaration: d,
            storage,
            end,
        } => {
            let ty = declared_type(alloc, &d.ty, defined, env, notes, d.at)?;
            function_typed(alloc, definitions, unit, env, notes, d, *storage, end, ty)
        }
        External::Tags { ty, .. } => {
            declared_type(alloc, ty, defined, env, notes, 0)?;
            Ok(())
        }
    }
}

/// The declarations of a unit in their order. `defined` has the tags that have a body.
pub fn externals<'a>(
    alloc: Global,
    definitions: &Definitions<'_>,
    unit: &mut UnitSoFar<'a>,
    defined: &mut NameTable<'a, ()>,
    env: &mut Env<'a>,
    notes: &mut Notes<'a>,
    list: &'a [External],
) -> Result<(), AllocError>
    ensures { OnOk result ((unit.new, (defined.new, (env.new, notes.new)))
        ≡ spec.externals definitions.now list.now (unit.old, (defined.old, (env.old, notes.old)))) }
{
    for e in list {
        external(alloc, definitions, unit, defined, env, notes, e)?;
    }
    Ok(())
}
