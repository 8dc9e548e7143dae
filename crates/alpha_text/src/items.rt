//! The lines of items are judged.

ghost use Rattle.std.specs.Prelude.{◌≡◌, ◌<◌, ◌↔◌, ℕ, List, [], IfOk, IfErr, IsTrue, OnOk, IfSome, position, ◌++◌, ◌∷◌, length, drop};
ghost use Rattle.std.specs.List.{list_any};
ghost use Rattle.alpha_items.specs.Items.{gives_word, names_label};
ghost use Rattle.alpha_items.specs.Assembly.{labels};
ghost use Rattle.alpha_items.specs.declared.item.AsmItem.{AsmItem as Item};
ghost use Rattle.alpha_lines.specs.Lines.{HasLine, item_line, data_line};
ghost use Rattle.alpha_text.specs.Wrong.{Text, Data, is_label_named as named_in, IsWithinData, lines_of, FitsBehind, HasEntry, Says, Form, TextSoFar};
ghost use Rattle.alpha_text.specs.model.Survey.{IsSurvey};
ghost use Rattle.alpha_text.specs.model.Labels.{IsIndex};
ghost use Rattle.alpha_text.specs.model.Reaches.{Reaches, IsFaultFrom};
ghost use Rattle.alpha_text.specs.model.LineMeaning as model;

use crate::cursor::Cursor;
use crate::fault::{TextFault, said_or_fault};
use crate::survey::{Survey, add_named};
use alpha_items::item::AsmItem;
use alpha_lines::data::read_data;
use alpha_lines::item::read_item;
use std::alloc::{AllocError, Global};
use std::collections::HashSet;

/// What a line before the data says.
#[derive(Drop)]
pub(crate) enum LineMeaning {
    Item(AsmItem),
    /// How many bytes the data has.
    Count(u64),
}

/// Whether some line of the text names the label.
fn is_named(survey: &Survey<'_>, label: u32) -> bool
    requires { IsSurvey survey.now }
    ensures { result ≡ named_in (lines_of survey.now.text.now) label }
{
    survey.names.contains(&label)
}

/// Whether the offset is within the data of the text.
fn is_within_data(survey: &Survey<'_>, offset: u32) -> bool
    requires { IsSurvey survey.now }
    ensures { IsTrue result ↔ IsWithinData (lines_of survey.now.text.now) offset }
{
    match survey.count {
        Some(n) => u64::from(offset) <= n,
        None => true,
    }
}

/// Whether an item may stand behind those whose labels have been seen.
fn fits(seen: &HashSet<u32>, survey: &Survey<'_>, item: &AsmItem) -> bool
    requires { IsSurvey survey.now }
    ensures { (items : List Item) → IsIndex seen.now (labels items) →
        IsTrue result ↔ FitsBehind (lines_of survey.now.text.now) items item.now }
{
    match item {
        AsmItem::Label(label) => !seen.contains(label),
        AsmItem::Name(_) | AsmItem::Plain(_) => true,
        AsmItem::Branch { label, .. } => is_named(survey, *label),
        AsmItem::TextAddress { label, .. } => is_named(survey, *label),
        AsmItem::DataAddress { offset, .. } => is_within_data(survey, *offset),
    }
}

/// Whether an item names label 0.
fn names_entry(item: &AsmItem) -> bool
    ensures { result ≡ names_label 0 item.now }
{
    matches!(item, AsmItem::Label(0))
}

/// Whether an item gives a word.
fn is_word(item: &AsmItem) -> bool
    ensures { result ≡ gives_word item.now }
{
    !matches!(item, AsmItem::Label(_) | AsmItem::Name(_))
}

/// Whether some item gives a word.
fn has_word(items: &[AsmItem]) -> bool
    ensures { result ≡ list_any gives_word items.now }
{
    items.iter().any(|item| is_word(item))
}

/// The place of the first item that names label 0.
fn entry_place(items: &[AsmItem]) -> Option<usize>
    ensures place { result ≡ position (names_label 0) items.now }
    ensures within { IfSome result (λ at. at < length items.now) }
{
    items.iter().position(|item| names_entry(item))
}

/// Whether label 0 is named and some item behind it gives a word.
fn has_entry(items: &[AsmItem]) -> bool
    ensures { IsTrue result ↔ HasEntry items.now }
{
    match entry_place(items) {
        Some(at) => has_word(&items[at..]),
        None => false,
    }
}

/// What a line before the data says, if it is in a form.
fn read_said(alloc: Global, line: &[u8]) -> Result<Option<LineMeaning>, AllocError>
    ensures { IfOk result (λ found. model.IsSaid line.now found) }
{
    match read_item(alloc, line)? {
        Some(item) => Ok(Some(LineMeaning::Item(item))),
        None => match read_data(line) {
            Some(n) => Ok(Some(LineMeaning::Count(n))),
            None => Ok(None),
        },
    }
}

/// Whether what a line says may stand behind the items.
fn may_stand(
    items: &[AsmItem],
    seen: &HashSet<u32>,
    survey: &Survey<'_>,
    said: &LineMeaning,
) -> bool
    requires survey { IsSurvey survey.now }
    requires seen { IsIndex seen.now (labels items.now) }
    ensures { IsTrue result ↔ model.StandsBehind (lines_of survey.now.text.now) items.now said.now }
{
    match said {
        LineMeaning::Item(item) => fits(seen, survey, item),
        LineMeaning::Count(_) => has_entry(items),
    }
}

/// What the next line says, if it may stand behind the items.
fn next_said(
    alloc: Global,
    items: &[AsmItem],
    seen: &HashSet<u32>,
    survey: &Survey<'_>,
    line: &[u8],
) -> Result<Option<LineMeaning>, AllocError>
    requires survey { IsSurvey survey.now }
    requires seen { IsIndex seen.now (labels items.now) }
    ensures { IfOk result (λ found. model.IsNext (lines_of survey.now.text.now) items.now line.now found) }
{
    let Some(found) = read_said(alloc, line)? else {
        return Ok(None);
    };
    if may_stand(items, seen, survey, &found) {
        Ok(Some(found))
    } else {
        Ok(None)
    }
}

/// Reads the lines of items up to the one that says how many bytes the data has.
pub(crate) fn read_items(
    alloc: Global,
    lines: &mut Cursor<'_>,
    survey: &Survey<'_>,
) -> Result<(Vec<AsmItem>, u64), TextFault>
    requires { IsSurvey survey.now }
    ensures read { IfOk result
        (λ p. Reaches (lines_of survey.now.text.now) (Text []) lines.old (Data p.0.items p.1 [] []) lines.new) }
    ensures fault { IfErr result (λ e. IsFaultFrom (lines_of survey.now.text.now) (Text []) lines.old e) }
{
    let mut items = Vec::new(alloc);
    let mut seen = HashSet::new(alloc);
    'reading: loop {
        let line = lines.due_line()?;
        let found = next_said(alloc, items.as_slice(), &seen, survey, line);
        let said = said_or_fault(found, lines.count())?;
        match said {
            LineMeaning::Count(n) => return Ok((items, n)),
            LineMeaning::Item(item) => {
                add_named(&mut seen, &item)?;
                items.push(item)?;
            }
        }
    }
}
