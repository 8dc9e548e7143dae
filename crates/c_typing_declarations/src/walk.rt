//! What is known of a unit behind some of its declarations.

ghost use Rattle.std.specs.Prelude.{◌≡◌, OnOk};
ghost use Rattle.std.specs.Option.{option_copied};
ghost use Rattle.c_typing_declarations.specs.Walk as spec;

use bk_containers::{Name, Seq};
use c_tree::Storage;
use c_typed_tree::{CType, Callee, TypedFn};
use c_typing_definitions::Definitions;
use c_typing_faults::Kind;
use c_typing_globals::{UnitObject, set_cells};
use c_typing_state::{Env, NameMeaning, Notes, meaning_of, note};
use c_typing_unit_names::{NameDeclaration, UnitNames, declare_in_unit};
use mem_objects::DataCell;
use std::alloc::{AllocError, Global};

/// A function that the unit defines.
#[derive(Drop)]
pub struct UnitFunction {
    /// Its number among the functions.
    pub number: u32,
    pub function: TypedFn,
}

/// What is known of a unit behind some of its declarations.
#[derive(Drop)]
pub struct UnitSoFar<'a> {
    /// The names with their numbers.
    pub names: UnitNames<'a>,
    /// The objects that the unit defines, by their numbers.
    pub objects: Seq<UnitObject>,
    /// The functions that the unit defines, in the order of their bodies, those that have no fault.
    pub functions: Seq<UnitFunction>,
    /// Whether `main` is defined, as a function of type `int (void)`.
    pub has_main: bool,
}

/// Declares a name at file scope; with no `new`, its declaration has a fault. `at` is the place of the declarator, in
/// bytes from the start of the text (C99 6.2.2, 6.7). It fails only where memory is short.
pub fn declare<'a>(
    alloc: Global,
    definitions: &Definitions<'_>,
    unit: &mut UnitSoFar<'a>,
    env: &mut Env<'a>,
    notes: &mut Notes<'a>,
    at: u32,
    name: &'a [u8],
    new: Option<NameDeclaration>,
) -> Result<(), AllocError>
    ensures { OnOk result ((unit.new, (env.new, notes.new))
        ≡ spec.declare definitions.now at name.now new (unit.old, (env.old, notes.old))) }
{
    declare_in_unit(
        alloc,
        definitions,
        &mut unit.names,
        env,
        notes,
        at,
        name,
        new,
    )
}

fn is_static(storage: Option<Storage>) -> bool
    ensures { result ≡ spec.is_static storage }
{
    match storage {
        None => false,
        Some(Storage::Static) => true,
        Some(Storage::Extern) => false,
    }
}

/// Whether it is the name of the function in which a program starts.
pub(crate) fn is_main(name: &[u8]) -> bool
    ensures { result ≡ spec.is_main name.now }
{
    name == b"main".as_slice()
}

/// `main` may not be static.
pub(crate) fn check_main(
    notes: &mut Notes<'_>,
    storage: Option<Storage>,
    at: u32,
    name: &[u8],
) -> Result<(), AllocError>
    ensures { OnOk result (notes.new ≡ spec.main_checked storage at name.now notes.old) }
{
    if is_static(storage) {
        if is_main(name) {
            return note(notes, at, Kind::Redeclared);
        }
        return Ok(());
    }
    Ok(())
}

/// The number of an object that the unit defines.
fn defined_object(meaning: Option<&NameMeaning>) -> Option<u32>
    ensures { result ≡ spec.defined_object (option_copied meaning.entry) }
{
    match meaning {
        None => None,
        Some(meaning) => match meaning {
            NameMeaning::Faulty => None,
            NameMeaning::Undefined(_) => None,
            NameMeaning::Local { .. } => None,
            NameMeaning::Object { number, .. } => Some(*number),
            NameMeaning::Constant(_) => None,
            NameMeaning::Function { .. } => None,
            NameMeaning::Typedef(_) => None,
        },
    }
}

/// The number of the object that a name means, if it is one that the unit defines.
fn object_at(env: &Env<'_>, name: &[u8]) -> Option<u32>
    ensures { result ≡ spec.object_number env.now name.now }
{
    defined_object(meaning_of(env, name))
}

fn add_next(
    alloc: Global,
    unit: &mut UnitSoFar<'_>,
    is_next: bool,
    name: &[u8],
    ty: &CType,
) -> Result<(), AllocError>
    ensures { OnOk result (unit.new ≡ spec.next_object is_next name.now ty.now unit.old) }
{
    if !is_next {
        return Ok(());
    }
    let object = UnitObject {
        name: Name::from_slice(alloc, name)?,
        ty: ty.copy(alloc)?,
        cells: Seq::new(alloc),
    };
    unit.objects.push(object)
}

/// Adds an object that was declared, if its number is the next one.
pub(crate) fn add_object(
    alloc: Global,
    unit: &mut UnitSoFar<'_>,
    env: &Env<'_>,
    name: &[u8],
    ty: &CType,
) -> Result<(), AllocError>
    ensures { OnOk result (unit.new ≡ spec.add_object env.now name.now ty.now unit.old) }
{
    match object_at(env, name) {
        None => Ok(()),
        Some(number) => {
            let is_next = number as usize == unit.objects.len();
            add_next(alloc, unit, is_next, name, ty)
        }
    }
}

/// Keeps what the initialiser of an object gives, if it has no fault.
pub(crate) fn keep_cells(
    alloc: Global,
    unit: &mut UnitSoFar<'_>,
    env: &Env<'_>,
    name: &[u8],
    cells: Option<Seq<DataCell>>,
)
    ensures { unit.new ≡ spec.keep_cells env.now name.now cells unit.old }
{
    match cells {
        None => {}
        Some(cells) => match object_at(env, name) {
            None => {}
            Some(number) => set_cells(alloc, &mut unit.objects, number, cells),
        },
    }
}

fn function_called(callee: Callee) -> Option<u32>
    ensures { result ≡ spec.function_called callee }
{
    match callee {
        Callee::Function(number) => Some(number),
        Callee::Builtin(_) => None,
    }
}

/// The number of a function that the unit defines.
fn function_by(meaning: Option<&NameMeaning>) -> Option<u32>
    ensures { result ≡ spec.function_by (option_copied meaning.entry) }
{
    match meaning {
        None => None,
        Some(meaning) => match meaning {
            NameMeaning::Faulty => None,
            NameMeaning::Undefined(_) => None,
            NameMeaning::Local { .. } => None,
            NameMeaning::Object { .. } => None,
            NameMeaning::Constant(_) => None,
            NameMeaning::Function { callee, .. } => function_called(*callee),
            NameMeaning::Typedef(_) => None,
        },
    }
}

/// The number of the function that a name means, if it is one that the unit defines.
fn function_at(env: &Env<'_>, name: &[u8]) -> Option<u32>
    ensures { result ≡ spec.function_at env.now name.now }
{
    function_by(meaning_of(env, name))
}

/// Keeps the function that a body makes under the number of its name, if it has no fault (C99 6.9.1). It fails only
/// where memory is short.
pub fn keep_function(
    unit: &mut UnitSoFar<'_>,
    env: &Env<'_>,
    name: &[u8],
    found: Option<TypedFn>,
) -> Result<(), AllocError>
    ensures { OnOk result (unit.new ≡ spec.keep_function env.now name.now found unit.old) }
{
    match found {
        None => Ok(()),
        Some(function) => match function_at(env, name) {
            None => Ok(()),
            Some(number) => unit.functions.push(UnitFunction { number, function }),
        },
    }
}
