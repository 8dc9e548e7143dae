//! Functions, but for their bodies.

ghost use Rattle.std.specs.Prelude.{◌≡◌, OnOk, true};
ghost use Rattle.c_typing_state.specs.Checks.{Finds};
ghost use Rattle.c_typing_declarations.specs.Functions as spec;
ghost use Rattle.c_typing_declarations.specs.model.Parts as model;
ghost use Rattle.c_typing_judgements.specs.Leaves as leaves;
ghost use Rattle.c_typing_faults.specs.declared.faults.Kind.TheVariants.{BadType};
ghost use Rattle.c_typing_rules.specs.Values as values;

use crate::objects::refuse_init;
use crate::walk::{UnitSoFar, check_main, declare, is_main};
use bk_arithmetic::integer_type::IntegerType;
use bk_containers::Name;
use c_tree::{Init, Parameter, Storage, TypeNode};
use c_typed_tree::CType;
use c_typing_definitions::Definitions;
use c_typing_faults::Kind;
use c_typing_judgements::types::type_named;
use c_typing_rules::c_typing_declared_types::DeclaredType;
use c_typing_rules::types::{integer_type, is_same};
use c_typing_state::{Env, Notes, note};
use c_typing_unit_names::NameDeclaration;
use std::alloc::{AllocError, Global};

fn no_type(notes: &mut Notes<'_>, at: u32) -> Result<Option<DeclaredType>, AllocError>
    ensures { Finds (leaves.no_type at BadType notes.old) result notes.new }
{
    note(notes, at, Kind::BadType)?;
    Ok(None)
}

/// The type of a function that is declared at the place `at`; `None` with the fault BadType where it is the type of no
/// function, or too deep (C99 6.7.5.3). It fails only where memory is short.
pub fn function_type(
    notes: &mut Notes<'_>,
    at: u32,
    ty: DeclaredType,
) -> Result<Option<DeclaredType>, AllocError>
    ensures { Finds (spec.function_type at ty notes.old) result notes.new }
{
    match ty {
        DeclaredType::Value(_) => no_type(notes, at),
        DeclaredType::Unsized(_) => no_type(notes, at),
        DeclaredType::Function { result, parameters } => {
            type_named(
                notes,
                at,
                Some(DeclaredType::Function { result, parameters }),
            )
        }
    }
}

/// Declares a function; with no `ty`, its type has a fault. `has_body` says whether it is defined here (C99 6.9.1).
/// It fails only where memory is short.
pub fn declare_function<'a>(
    alloc: Global,
    definitions: &Definitions<'_>,
    unit: &mut UnitSoFar<'a>,
    env: &mut Env<'a>,
    notes: &mut Notes<'a>,
    at: u32,
    name: &'a [u8],
    storage: Option<Storage>,
    has_body: bool,
    ty: Option<DeclaredType>,
) -> Result<(), AllocError>
    ensures { OnOk result ((unit.new, (env.new, notes.new))
        ≡ spec.function_by_type definitions.now at name.now storage has_body ty (unit.old, (env.old, notes.old))) }
{
    match ty {
        None => declare(alloc, definitions, unit, env, notes, at, name, None),
        Some(ty) => {
            check_main(notes, storage, at, name)?;
            let new = NameDeclaration {
                is_typedef: false,
                ty,
                has_value: has_body,
            };
            declare(alloc, definitions, unit, env, notes, at, name, Some(new))
        }
    }
}

#[tactic(auto, unfolding(crate::specs::model::Opens::opens))]
fn is_list(init: &Init) -> bool
    ensures { result ≡ spec.is_list init.now }
{
    match init {
        Init::Value(_) => false,
        Init::List { .. } => true,
    }
}

/// The fault of an initialiser of a function.
fn refusal_of(init: &Init) -> Kind
    ensures { result ≡ spec.refusal_of init.now }
{
    if is_list(init) {
        return Kind::BadInit;
    }
    Kind::BadConversion
}

/// Judges the initialiser of a function, which is a fault: a function has none (C99 6.7.8). It fails only where memory
/// is short.
pub fn refuse_value<'a>(
    alloc: Global,
    env: &mut Env<'a>,
    notes: &mut Notes<'a>,
    init: &'a Init,
) -> Result<(), AllocError>
    ensures { OnOk result ((env.new, notes.new) ≡ spec.init_refused init.now (env.old, notes.old)) }
{
    let kind = refusal_of(init);
    refuse_init(alloc, env, notes, kind, init)
}

/// Judges the initialiser of a function where there is one, as `refuse_value` does. It fails only where memory is
/// short.
pub fn refuse_optional<'a>(
    alloc: Global,
    env: &mut Env<'a>,
    notes: &mut Notes<'a>,
    init: &'a Option<Init>,
) -> Result<(), AllocError>
    ensures { OnOk result ((env.new, notes.new) ≡ spec.optional_refused init.now (env.old, notes.old)) }
{
    match init {
        None => Ok(()),
        Some(init) => refuse_value(alloc, env, notes, init),
    }
}

/// A parameter of a function that is defined has a name.
fn judge_name(
    notes: &mut Notes<'_>,
    at: u32,
    name: &Option<Name>,
    whole: bool,
) -> Result<bool, AllocError>
    ensures { Finds (spec.name_judged at name.now whole notes.old) result notes.new }
{
    match name {
        None => {
            note(notes, at, Kind::BadType)?;
            Ok(false)
        }
        Some(_) => Ok(whole),
    }
}

fn judge_names(notes: &mut Notes<'_>, parameters: &[Parameter]) -> Result<bool, AllocError>
    ensures { Finds (model.names_judged parameters.now true notes.old) result notes.new }
{
    let mut whole = true;
    for parameter in parameters {
        whole = judge_name(notes, parameter.at, &parameter.name, whole)?;
    }
    Ok(whole)
}

fn type_where(ty: DeclaredType, whole: bool) -> Option<DeclaredType>
    ensures { result ≡ spec.type_where ty whole }
{
    if whole {
        return Some(ty);
    }
    None
}

/// The type of a function that is defined, with the fault BadType where the declarator is not its own or a parameter
/// has no name (C99 6.9.1). It fails only where memory is short.
#[tactic(auto, unfolding(crate::specs::model::Opens::opens))]
pub fn defined_type(
    notes: &mut Notes<'_>,
    at: u32,
    node: &TypeNode,
    ty: DeclaredType,
) -> Result<Option<DeclaredType>, AllocError>
    ensures { Finds (spec.defined_type at node.now ty notes.old) result notes.new }
{
    match node {
        TypeNode::Basic(_) => no_type(notes, at),
        TypeNode::Named(_) => no_type(notes, at),
        TypeNode::Enum { .. } => no_type(notes, at),
        TypeNode::Struct { .. } => no_type(notes, at),
        TypeNode::Pointer(_) => no_type(notes, at),
        TypeNode::Array { .. } => no_type(notes, at),
        TypeNode::Takes { parameters, .. } => {
            let whole = judge_names(notes, parameters.as_slice())?;
            Ok(type_where(ty, whole))
        }
    }
}

fn is_int(ty: &CType) -> bool
    ensures { result ≡ values.is_same ty.now values.int }
{
    is_same(ty, &integer_type(IntegerType::Int))
}

fn is_start_of(of: &CType, parameters: &[CType]) -> bool
    ensures { result ≡ spec.is_start_of of.now parameters.now }
{
    if parameters.is_empty() {
        return is_int(of);
    }
    false
}

/// Whether it is the type of `main`.
fn is_start(ty: &DeclaredType) -> bool
    ensures { result ≡ spec.is_start ty.now }
{
    match ty {
        DeclaredType::Value(_) => false,
        DeclaredType::Unsized(_) => false,
        DeclaredType::Function { result, parameters } => is_start_of(result, parameters.as_slice()),
    }
}

/// Notes whether a function that is defined is `main`, of type `int (void)` (C99 5.1.2.2.1).
pub fn see_main(unit: &mut UnitSoFar<'_>, name: &[u8], ty: &DeclaredType)
    ensures { unit.new ≡ spec.main_seen name.now ty.now unit.old }
{
    let is_defined = is_main(name) && is_start(ty);
    unit.has_main = unit.has_main || is_defined;
}
