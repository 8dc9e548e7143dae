//! The walk over initialisers.

ghost use Rattle.std.specs.Prelude.{◌≡◌, ◌+◌, IfOk};
ghost use Rattle.c_typing_state.specs.Checks.{Finds};
ghost use Rattle.c_typing_initialisers.specs.declared.lists.InitialiserItems.TheVariants.{Fitting};
ghost use Rattle.c_typing_initial_values.specs.Parts.{is_character};
ghost use Rattle.c_typing_initialisers.specs.Initialisers as spec;
ghost use Rattle.c_typing_initialisers.specs.Values.{text_in};
ghost use Rattle.c_typed_tree.specs.View.{type_view};
ghost use Rattle.c_typing_initialisers.specs.model.Parts as model;

use crate::lists::{InitialiserItems, list_in, with_item, with_surplus};
use crate::unfitting::judge_init;
use crate::values::{single_value, text_in};
use bk_containers::Seq;
use c_tree::{Expr, Init};
use c_typed_tree::CType;
use c_typing_initial_values::parts::{is_character, part_of};
use c_typing_judgements::texts::bytes_of;
use c_typing_state::{Env, Notes};
use mem_objects::DataCell;
use std::alloc::{AllocError, Global};

/// The sum of two places in an object, which has a number of 64 bits.
fn behind(place: u64, more: u64) -> Result<u64, AllocError>
    ensures { IfOk result (λ n. n ≡ place + more) }
{
    match place.checked_add(more) {
        None => Err(AllocError),
        Some(place) => Ok(place),
    }
}

/// Fills a place of an object of this type, and gives the initialiser's own place in the text, if it has no fault.
#[cycle(object)]
#[tactic(auto, using(crate::proofs::Rows::rows), unfolding(crate::specs::model::Opens::opens))]
fn initialise<'a>(
    alloc: Global,
    init: &'a Init,
    cells: &mut Vec<DataCell>,
    env: &mut Env<'a>,
    notes: &mut Notes<'a>,
    ty: &CType,
    place: u64,
) -> Result<Option<u32>, AllocError>
    ensures { Finds (spec.initialise init.now ty.now place (cells.old.items, (env.old, notes.old)))
        result (cells.new.items, (env.new, notes.new)) }
{
    match init {
        Init::Value(e) => single_value(alloc, cells, env, notes, ty, place, e),
        Init::List { at, items } => {
            let found = items_in(alloc, items.as_slice(), cells, env, notes, ty, place)?;
            list_in(notes, ty, *at, found)
        }
    }
}

/// Fills the parts of an object in order.
#[cycle(object)]
fn items_in<'a>(
    alloc: Global,
    list: &'a [Init],
    cells: &mut Vec<DataCell>,
    env: &mut Env<'a>,
    notes: &mut Notes<'a>,
    ty: &CType,
    place: u64,
) -> Result<InitialiserItems, AllocError>
    ensures { Finds (model.items_from list.now ty.now place 0 Fitting (cells.old.items, (env.old, notes.old)))
        result (cells.new.items, (env.new, notes.new)) }
{
    let mut found = InitialiserItems::Fitting;
    let mut k = 0;
    for init in list {
        found = one_item(alloc, init, cells, env, notes, ty, place, k, found)?;
        k = behind(k, 1)?;
    }
    Ok(found)
}

/// Fills the part with a number, if there is one.
#[cycle(object)]
fn one_item<'a>(
    alloc: Global,
    init: &'a Init,
    cells: &mut Vec<DataCell>,
    env: &mut Env<'a>,
    notes: &mut Notes<'a>,
    ty: &CType,
    place: u64,
    k: u64,
    found: InitialiserItems,
) -> Result<InitialiserItems, AllocError>
    ensures { Finds (model.one_item init.now ty.now place k found (cells.old.items, (env.old, notes.old)))
        result (cells.new.items, (env.new, notes.new)) }
{
    match part_of(alloc, notes.structs.as_slice(), ty, k)? {
        None => {
            let surplus = judge_init(alloc, init, env, notes)?;
            Ok(with_surplus(found, surplus))
        }
        Some(part) => {
            let place = behind(place, part.place)?;
            let item = initialise(alloc, init, cells, env, notes, &part.ty, place)?;
            Ok(with_item(found, item))
        }
    }
}

/// The cells of an object of this type, which its initialiser gives, if it has no fault.
pub fn object_cells<'a>(
    alloc: Global,
    ty: &CType,
    init: &'a Init,
    env: &mut Env<'a>,
    notes: &mut Notes<'a>,
) -> Result<Option<Seq<DataCell>>, AllocError>
    ensures { Finds (spec.object_cells ty.now init.now (env.old, notes.old)) result (env.new, notes.new) }
{
    let mut cells = Vec::new(alloc);
    match initialise(alloc, init, &mut cells, env, notes, ty, 0)? {
        None => Ok(None),
        Some(_) => Ok(Some(Seq::from_vec(cells))),
    }
}

/// The number of bytes of a text that initialises an array of these elements; 1 of what is no such text.
fn text_length(alloc: Global, element: &CType, e: &Expr) -> Result<u64, AllocError>
    ensures { IfOk result (λ n. n ≡ spec.text_length (is_character (type_view element.now)) (text_in e.now)) }
{
    match text_in(e) {
        None => Ok(1),
        Some((_, spellings)) => {
            if is_character(element) {
                let bytes = bytes_of(alloc, spellings)?;
                return Ok(bytes.len() as u64);
            }
            Ok(1)
        }
    }
}

/// The length that an initialiser gives to an array of these elements that has none: the number of its items, or of the
/// bytes of a text. Another value gives none, and is a fault; it counts as 1.
#[tactic(auto, using(crate::proofs::Rows::rows), unfolding(crate::specs::model::Opens::opens))]
pub fn length_given(alloc: Global, element: &CType, init: &Init) -> Result<u64, AllocError>
    ensures { IfOk result (λ n. n ≡ spec.length_given element.now init.now) }
{
    match init {
        Init::Value(e) => text_length(alloc, element, e),
        Init::List { items, .. } => Ok(items.len() as u64),
    }
}
