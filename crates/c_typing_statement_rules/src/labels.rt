//! The labels of one `switch` (C99 6.8.4.2).

ghost use Rattle.std.specs.Prelude.{◌≡◌, []};
ghost use Rattle.c_typing_state.specs.Checks.{Finds, each};
ghost use Rattle.c_typing_statement_rules.specs.Labels as spec;

use bk_arithmetic::integer_type::IntegerType;
use c_typed_tree::TLabel;
use c_typing_constants::c_constant_rules::values::label;
use c_typing_faults::Kind;
use c_typing_rules::TypedExpression;
use c_typing_state::{Notes, note, note_fault};
use indexmap::IndexSet;
use std::alloc::{AllocError, Global};
use std::marker::Model;

/// Values, each once. Contracts see them in the order in which they came.
#[derive(Drop)]
pub struct DistinctValues {
    values: IndexSet<u64>,
}

impl Model for DistinctValues {
    ghost use Rattle.std.specs.Prelude.{List, ℕ};

    ghost Value = { List ℕ };

    ghost view = { λ w. w.values.keys };
}

impl DistinctValues {
    /// No values.
    pub fn new(alloc: Global) -> DistinctValues
        ensures { result ≡ [] }
    {
        DistinctValues {
            values: IndexSet::new(alloc),
        }
    }

    /// Adds a value, and says whether it is a new one.
    pub fn add(&mut self, word: u64) -> Result<bool, AllocError>
        ensures { Finds (spec.add_word word self.old) result self.new }
    {
        match self.values.insert(word) {
            Err(_) => Err(AllocError),
            Ok(is_new) => Ok(is_new),
        }
    }
}

/// The labels of a `switch` that stand before a place in it.
#[derive(Drop)]
pub struct Labels {
    /// The values, as words of the promoted type of the operand.
    pub words: DistinctValues,
    pub has_default: bool,
}

impl Labels {
    /// No labels.
    pub fn new(alloc: Global) -> Labels
        ensures { result ≡ spec.no_labels }
    {
        Labels {
            words: DistinctValues::new(alloc),
            has_default: false,
        }
    }
}

fn bad_label(notes: &mut Notes<'_>, at: u32) -> Result<Option<TLabel>, AllocError>
    ensures { Finds (spec.bad_label at notes.old) result notes.new }
{
    note(notes, at, Kind::BadLabel)?;
    Ok(None)
}

fn new_case(
    labels: &mut Labels,
    notes: &mut Notes<'_>,
    at: u32,
    word: u64,
) -> Result<Option<TLabel>, AllocError>
    ensures { Finds (spec.new_case at word (labels.old, notes.old)) result (labels.new, notes.new) }
{
    if labels.words.add(word)? {
        return Ok(Some(TLabel::Case(word)));
    }
    bad_label(notes, at)
}

fn case_value(
    labels: &mut Labels,
    notes: &mut Notes<'_>,
    ty: Option<IntegerType>,
    at: u32,
    word: u64,
) -> Result<Option<TLabel>, AllocError>
    ensures { Finds (spec.case_value ty at word (labels.old, notes.old)) result (labels.new, notes.new) }
{
    match ty {
        None => Ok(Some(TLabel::Case(word))),
        Some(_) => new_case(labels, notes, at, word),
    }
}

/// The type to which the values of labels are converted.
fn operand_type(ty: Option<IntegerType>) -> IntegerType
    ensures { result ≡ spec.operand_type ty }
{
    match ty {
        None => IntegerType::Int,
        Some(ty) => ty,
    }
}

/// A `case`, at its word. `ty` is the promoted type of the operand, where it has no fault.
pub fn case_label(
    labels: &mut Labels,
    notes: &mut Notes<'_>,
    ty: Option<IntegerType>,
    at: u32,
    a: Option<TypedExpression>,
) -> Result<Option<TLabel>, AllocError>
    ensures { Finds (each a (spec.case_label ty at) (labels.old, notes.old)) result (labels.new, notes.new) }
{
    match a {
        None => Ok(None),
        Some(a) => {
            let ruling = label(operand_type(ty), &a);
            match note_fault(notes, ruling)? {
                None => Ok(None),
                Some(word) => case_value(labels, notes, ty, at, word),
            }
        }
    }
}

/// A `default`, at its word.
pub fn default_label(
    labels: &mut Labels,
    notes: &mut Notes<'_>,
    at: u32,
) -> Result<Option<TLabel>, AllocError>
    ensures { Finds (spec.default_label at (labels.old, notes.old)) result (labels.new, notes.new) }
{
    if labels.has_default {
        return bad_label(notes, at);
    }
    labels.has_default = true;
    Ok(Some(TLabel::Default))
}
