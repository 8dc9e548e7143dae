//! Initialisers that fit nothing.

ghost use Rattle.std.specs.Prelude.{◌≡◌, true};
ghost use Rattle.c_typing_state.specs.Checks.{Finds};
ghost use Rattle.c_typing_initialisers.specs.Unfit as spec;
ghost use Rattle.c_typing_initialisers.specs.model.Parts as model;

use c_tree::{Expr, Init};
use c_typing_expressions::judge;
use c_typing_faults::Kind;
use c_typing_state::{Env, Notes, note};
use std::alloc::{AllocError, Global};

/// Judges an expression, and gives its place, if it has no fault.
fn judge_value<'a>(
    alloc: Global,
    e: &'a Expr,
    env: &mut Env<'a>,
    notes: &mut Notes<'a>,
) -> Result<Option<u32>, AllocError>
    ensures { Finds (spec.judge_value e.now (env.old, notes.old)) result (env.new, notes.new) }
{
    match judge(alloc, e, env, notes)? {
        None => Ok(None),
        Some(a) => Ok(Some(a.at)),
    }
}

fn list_place(at: u32, whole: bool) -> Option<u32>
    ensures { result ≡ spec.list_place at whole }
{
    if whole {
        return Some(at);
    }
    None
}

/// Whether items are without fault that were so before one of a place, if that has none.
fn is_whole_with(whole: bool, place: Option<u32>) -> bool
    ensures { result ≡ spec.is_whole_with whole place }
{
    whole && place.is_some()
}

/// Judges the expressions in an initialiser, and gives its place, if none of them has a fault.
#[cycle(parts)]
#[tactic(auto, using(crate::proofs::Rows::rows), unfolding(crate::specs::model::Opens::opens))]
pub fn judge_init<'a>(
    alloc: Global,
    init: &'a Init,
    env: &mut Env<'a>,
    notes: &mut Notes<'a>,
) -> Result<Option<u32>, AllocError>
    ensures { Finds (spec.judge_init init.now (env.old, notes.old)) result (env.new, notes.new) }
{
    match init {
        Init::Value(e) => judge_value(alloc, e, env, notes),
        Init::List { at, items } => {
            let whole = judge_inits(alloc, items.as_slice(), env, notes)?;
            Ok(list_place(*at, whole))
        }
    }
}

/// Judges the expressions in some initialisers, and says whether none of them has a fault.
#[cycle(parts)]
fn judge_inits<'a>(
    alloc: Global,
    list: &'a [Init],
    env: &mut Env<'a>,
    notes: &mut Notes<'a>,
) -> Result<bool, AllocError>
    ensures { Finds (model.judge_inits list.now true (env.old, notes.old)) result (env.new, notes.new) }
{
    let mut whole = true;
    for init in list {
        let place = judge_init(alloc, init, env, notes)?;
        whole = is_whole_with(whole, place);
    }
    Ok(whole)
}

/// A fault, in place of the place of an initialiser.
pub(crate) fn no_place(
    notes: &mut Notes<'_>,
    kind: Kind,
    at: u32,
) -> Result<Option<u32>, AllocError>
    ensures { Finds (spec.no_place kind at notes.old) result notes.new }
{
    note(notes, at, kind)?;
    Ok(None)
}

/// Judges an initialiser that has a fault of this kind, if nothing in it has one.
pub fn unfit<'a>(
    alloc: Global,
    kind: Kind,
    init: &'a Init,
    env: &mut Env<'a>,
    notes: &mut Notes<'a>,
) -> Result<Option<u32>, AllocError>
    ensures { Finds (spec.faulty_init kind init.now (env.old, notes.old)) result (env.new, notes.new) }
{
    match judge_init(alloc, init, env, notes)? {
        None => Ok(None),
        Some(at) => no_place(notes, kind, at),
    }
}
