//! Whole units.

ghost use Rattle.std.specs.Prelude.{◌≡◌, ◌*◌, ◌≤◌, IsTrue, is_some, IfOk, IfErr, IfSome, IfNone, Some, None, [], replicate, slice_set};
ghost use Rattle.c_tree.specs.Nodes.{unit_height};
ghost use Rattle.c_typed_tree.specs.c_typed_height.Heights.{typed_unit_height};
ghost use Rattle.c_typed_tree.specs.Lawful.{IsLawfulUnit};
ghost use Rattle.c_types.specs.Spellings.{HasSpellings};
ghost use Rattle.c_types.specs.Units as spec;
ghost use Rattle.c_typing_counts.specs.unit_counts.Counts.{CanBeCounted};

use crate::faults::TypeFault;
use bk_containers::Seq;
use c_tree::TranslationUnit;
use c_typed_tree::{StructDef, TypedFn, TypedUnit};
use c_typing_counts::unit_counts::can_be_counted;
use c_typing_declarations::{UnitFunction, UnitSoFar};
use c_typing_faults::{Fault, least};
use c_typing_globals::{UnitObject, lay_out_globals};
use c_typing_state::{Notes, append_part};
use c_typing_text_laws::c_text_bytes::read_texts;
use c_typing_units::{UnitState, judge};
use std::alloc::{AllocError, Global};

/// A place for each function, without a tree.
fn no_trees(alloc: Global, count: u32) -> Result<Vec<Option<TypedFn>>, AllocError>
    ensures { IfOk result (λ r. r.items ≡ replicate count None) }
{
    let mut places = Vec::new(alloc);
    for _place in 0..count {
        places.push(None)?;
    }
    Ok(places)
}

/// Puts a tree at the place of its function, if there is one.
fn put_tree(places: &mut Vec<Option<TypedFn>>, number: usize, function: TypedFn)
    ensures { places.new.items ≡ slice_set places.old.items number (Some function) }
{
    if number < places.len() {
        places[number] = Some(function);
    }
}

fn put_trees(places: &mut Vec<Option<TypedFn>>, functions: Seq<UnitFunction>)
    ensures { places.new.items ≡ spec.with_trees functions places.old.items }
{
    let mut rest = Seq::into_vec(functions).into_iter();
    while let Some(one) = rest.next() {
        let UnitFunction { number, function } = one;
        put_tree(places, number as usize, function);
    }
}

/// The functions, if each has its tree.
fn whole_functions(
    alloc: Global,
    places: Vec<Option<TypedFn>>,
) -> Result<Option<Seq<TypedFn>>, AllocError>
    ensures { IfOk result (λ r. r ≡ spec.append_functions (Some []) places.items) }
{
    let mut found = Some(Seq::new(alloc));
    let mut rest = places.into_iter();
    while let Some(part) = rest.next() {
        found = append_part(found, part)?;
    }
    Ok(found)
}

/// The functions in the order of their numbers, if each has its tree.
fn functions_in(
    alloc: Global,
    count: u32,
    functions: Seq<UnitFunction>,
) -> Result<Option<Seq<TypedFn>>, AllocError>
    ensures { IfOk result (λ r. r ≡ spec.append_functions (Some []) (spec.functions_in count functions)) }
{
    let mut places = no_trees(alloc, count)?;
    put_trees(&mut places, functions);
    whole_functions(alloc, places)
}

/// A unit, if it can be counted.
fn counted_unit(unit: TypedUnit) -> Option<TypedUnit>
    ensures same { IfSome result (λ u. unit ≡ u) }
    ensures counted { IfSome result CanBeCounted }
    ensures more { IfNone result (CanBeCounted unit → ⊥) }
{
    if can_be_counted(&unit) {
        return Some(unit);
    }
    None
}

/// The typed unit, if it can be counted. Each function has its tree.
fn whole_unit(
    alloc: Global,
    structs: Seq<StructDef>,
    objects: Seq<UnitObject>,
    texts: Seq<Seq<u8>>,
    count: u32,
    functions: Seq<UnitFunction>,
) -> Result<Option<TypedUnit>, AllocError>
    requires trees { IsTrue (is_some (spec.append_functions (Some []) (spec.functions_in count functions))) }
    ensures unit { IfOk result (λ r. IfSome r (λ u. spec.unit_with structs objects texts count functions ≡ Some u)) }
    ensures counted { IfOk result (λ r. IfSome r CanBeCounted) }
{
    match functions_in(alloc, count, functions)? {
        None => unreachable!(),
        Some(functions) => {
            let globals = lay_out_globals(alloc, structs.as_slice(), objects, texts.as_slice())?;
            Ok(counted_unit(TypedUnit {
                structs,
                globals,
                functions,
            }))
        }
    }
}

/// The typed unit. One whose parts 32 bits do not count is refused as want of memory.
fn make_unit(
    alloc: Global,
    structs: Seq<StructDef>,
    objects: Seq<UnitObject>,
    texts: Seq<Seq<u8>>,
    count: u32,
    functions: Seq<UnitFunction>,
) -> Result<TypedUnit, AllocError>
    requires trees { IsTrue (is_some (spec.append_functions (Some []) (spec.functions_in count functions))) }
    ensures unit { IfOk result (λ r. spec.unit_with structs objects texts count functions ≡ Some r) }
    ensures counted { IfOk result CanBeCounted }
{
    match whole_unit(alloc, structs, objects, texts, count, functions)? {
        None => Err(AllocError),
        Some(unit) => Ok(unit),
    }
}

/// The typed tree of a unit, which is lawful where the names of functions are identifiers and literals hold bytes: in
/// the tree of a text they are. It is at most three times as high as the tree of the unit.
///
/// # Errors
///
/// [`TypeFault::Typing`] exactly where the unit has faults, with the first of them: by its place, and at one place by
/// the number of its kind; and [`TypeFault::NoMemory`].
pub fn check(alloc: Global, unit: &TranslationUnit) -> Result<TypedUnit, TypeFault>
    ensures typed { IfOk result (spec.IsTyped unit.now) }
    ensures lawful { IfOk result (λ typed. HasSpellings unit.now → IsLawfulUnit typed) }
    ensures height { IfOk result (λ typed. typed_unit_height typed ≤ 3 * unit_height unit.now) }
    ensures fault { IfErr result (spec.IsFaulty unit.now) }
{
    let UnitState { so_far, notes, .. } = judge(alloc, unit)?;
    match least(notes.faults.as_slice()) {
        Some(Fault { at, kind }) => Err(TypeFault::Typing { at, kind }),
        None => {
            let UnitSoFar {
                names,
                objects,
                functions,
                ..
            } = so_far;
            let Notes { structs, texts, .. } = notes;
            read_texts(texts.as_slice());
            Ok(make_unit(alloc, structs, objects, texts, names.functions, functions)?)
        }
    }
}
