//! Whole units.

ghost use Rattle.std.specs.Prelude.{◌≡◌, OnOk, IfOk};
ghost use Rattle.c_typing_units.specs.Units as spec;

use crate::c_builtins::builtins;
use crate::c_typing_externals::externals;
use crate::undefined::note_undefined;
use bk_containers::Seq;
use c_tree::TranslationUnit;
use c_typing_declarations::UnitSoFar;
use c_typing_definitions::{Definitions, find_definitions, object_count};
use c_typing_faults::Kind;
use c_typing_scopes::NameTable;
use c_typing_state::{Env, Notes, note};
use std::alloc::{AllocError, Global};

fn no_notes<'a>(alloc: Global, first_text: u32) -> Notes<'a>
    ensures { result ≡ spec.no_notes first_text }
{
    Notes {
        faults: Seq::new(alloc),
        addressed: Seq::new(alloc),
        texts: Seq::new(alloc),
        first_text,
        uses: Seq::new(alloc),
        structs: Seq::new(alloc),
        members: Seq::new(alloc),
        tags: NameTable::new(alloc),
        untagged: None,
    }
}

/// A unit has a function `main`.
fn note_main(notes: &mut Notes<'_>, length: u32, has_main: bool) -> Result<(), AllocError>
    ensures { OnOk result (notes.new ≡ spec.main_missed length has_main notes.old) }
{
    if has_main {
        return Ok(());
    }
    note(notes, length, Kind::MissingMain)
}

/// What is seen of a unit at its end.
fn end_unit(notes: &mut Notes<'_>, length: u32, has_main: bool) -> Result<(), AllocError>
    ensures { OnOk result (notes.new ≡ spec.end_notes length has_main notes.old) }
{
    note_undefined(notes)?;
    note_main(notes, length, has_main)
}

/// What is known of a unit behind some of its declarations, the names and tags in scope, and what was noted.
#[derive(Drop)]
pub struct UnitState<'a> {
    pub so_far: UnitSoFar<'a>,
    /// The tags that have a body.
    pub defined: NameTable<'a, ()>,
    pub env: Env<'a>,
    pub notes: Notes<'a>,
}

/// Before the first declaration.
fn start<'a>(alloc: Global, definitions: &Definitions<'_>) -> Result<UnitState<'a>, AllocError>
    ensures { IfOk result (λ s. (s.so_far, (s.defined, (s.env, s.notes))) ≡ spec.unit_start definitions.now) }
{
    let first_text = object_count(definitions)?;
    let (names, env) = builtins(alloc)?;
    Ok(UnitState {
        so_far: UnitSoFar {
            names,
            objects: Seq::new(alloc),
            functions: Seq::new(alloc),
            has_main: false,
        },
        defined: NameTable::new(alloc),
        env,
        notes: no_notes(alloc, first_text),
    })
}

/// Judges the declarations of a unit, and what is seen of it at its end.
fn judge_unit<'a>(
    alloc: Global,
    definitions: &Definitions<'_>,
    unit: &'a TranslationUnit,
    state: &mut UnitState<'a>,
) -> Result<(), AllocError>
    ensures { OnOk result ((state.new.so_far, (state.new.defined, (state.new.env, state.new.notes)))
        ≡ spec.judge_unit definitions.now unit.now
        (state.old.so_far, (state.old.defined, (state.old.env, state.old.notes)))) }
{
    externals(
        alloc,
        definitions,
        &mut state.so_far,
        &mut state.defined,
        &mut state.env,
        &mut state.notes,
        unit.externals.as_slice(),
    )?;
    end_unit(&mut state.notes, unit.length, state.so_far.has_main)
}

/// What is known of a whole unit, of which it is given what it defines.
fn judge_whole<'a>(
    alloc: Global,
    definitions: &Definitions<'_>,
    unit: &'a TranslationUnit,
) -> Result<UnitState<'a>, AllocError>
    ensures { IfOk result (λ s. (s.so_far, (s.defined, (s.env, s.notes)))
        ≡ spec.judge_unit definitions.now unit.now (spec.unit_start definitions.now)) }
{
    let mut state = start(alloc, definitions)?;
    match judge_unit(alloc, definitions, unit, &mut state) {
        Ok(()) => Ok(state),
        Err(error) => {
            // So the drops of its parts are proved apart.
            drop(state);
            Err(error)
        }
    }
}

/// What is known of a whole unit, and what was noted. It fails only where memory is short.
pub fn judge<'a>(alloc: Global, unit: &'a TranslationUnit) -> Result<UnitState<'a>, AllocError>
    ensures { IfOk result (λ s. (s.so_far, (s.defined, (s.env, s.notes))) ≡ spec.whole_unit unit.now) }
{
    let definitions = find_definitions(alloc, unit.externals.as_slice())?;
    judge_whole(alloc, &definitions, unit)
}
