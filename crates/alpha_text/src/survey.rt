//! What the lines of a text name, which is known before they are judged.

ghost use Rattle.std.specs.Prelude.{◌≡◌, ◌↔◌, ◌<◌, ◌^◌, ℕ, List, [], ◌∷◌, ◌++◌, IfOk, IfSome, IsTrue, Some, find, not, ◌||◌, ◌==◌, OnOk};
ghost use Rattle.alpha_lines.specs.Lines.{data_line};
ghost use Rattle.alpha_items.specs.declared.item.AsmItem.{AsmItem as Item};
ghost use Rattle.alpha_items.specs.Assembly.{labels};
ghost use Rattle.alpha_text.specs.Wrong.{lines_of, begins_data, is_label_named, is_among};
ghost use Rattle.alpha_text.specs.model.Labels.{has_label, is_label, IsIndex};

use crate::cursor::Cursor;
use alpha_items::item::AsmItem;
use alpha_lines::data::read_data;
use alpha_lines::item::read_item;
use std::alloc::{AllocError, Global};
use std::collections::HashSet;

/// The labels that the lines of a text name, and how many bytes its data has.
#[derive(Drop)]
pub(crate) struct Survey<'a> {
    pub(crate) text: &'a [u8],
    pub(crate) names: HashSet<u32>,
    /// By its first line that begins with `.data`, if that is in its form.
    pub(crate) count: Option<u64>,
}

/// Adds a label, and says whether it is a new one.
pub(crate) fn add_label(labels: &mut HashSet<u32>, label: u32) -> Result<bool, AllocError>
    ensures added { IfOk result (λ added. added ≡ not (has_label labels.old label)) }
    ensures labels { OnOk result ((l : ℕ) → has_label labels.new l ≡ (has_label labels.old l || l == label)) }
{
    Ok(labels.insert(label)?)
}

/// How many bytes the data has by the first line that begins with `.data`.
fn count_of(text: &[u8]) -> Option<u64>
    ensures found { IfSome result (λ n. (n < 2 ^ 64) × (find begins_data (lines_of text.now) ≡ Some (data_line n))) }
    ensures only { (n : ℕ) → n < 2 ^ 64 → find begins_data (lines_of text.now) ≡ Some (data_line n) → result ≡ Some n }
{
    let mut lines = Cursor::new(text);
    while let Some(line) = lines.next_line() {
        if line.starts_with(b".data ") {
            return read_data(line);
        }
    }
    None
}

/// Adds the label that an item names, if it names one.
pub(crate) fn add_named(seen: &mut HashSet<u32>, item: &AsmItem) -> Result<(), AllocError>
    ensures labels { OnOk result ((l : ℕ) → has_label seen.new l ≡
        (has_label seen.old l || is_among (labels (item.now ∷ [])) l)) }
    ensures index { OnOk result ((items : List Item) → IsIndex seen.old (labels items) →
        IsIndex seen.new (labels (items ++ item.now ∷ []))) }
{
    match item {
        AsmItem::Label(label) => {
            let _is_new = add_label(seen, *label)?;
            Ok(())
        }
        _ => Ok(()),
    }
}

/// Adds the label that a line names, if it is that of a label.
fn add_name(alloc: Global, names: &mut HashSet<u32>, line: &[u8]) -> Result<(), AllocError>
    ensures { OnOk result ((l : ℕ) → l < 2 ^ 32 → has_label names.new l ≡
        (has_label names.old l || is_label l line.now)) }
{
    match read_item(alloc, line)? {
        Some(item) => add_named(names, &item),
        None => Ok(()),
    }
}

/// The labels that lines of the text name.
fn names_of(alloc: Global, text: &[u8]) -> Result<HashSet<u32>, AllocError>
    ensures { IfOk result (λ names. (l : ℕ) → l < 2 ^ 32 → has_label names l ≡ is_label_named (lines_of text.now) l) }
{
    let mut names = HashSet::new(alloc);
    let mut lines = Cursor::new(text);
    while let Some(line) = lines.next_line() {
        add_name(alloc, &mut names, line)?;
    }
    Ok(names)
}

impl<'a> Survey<'a> {
    ghost use Rattle.std.specs.Prelude.{◌≡◌, IfOk};
    ghost use Rattle.alpha_text.specs.model.Survey.{IsSurvey};

    /// The survey of a text.
    pub(crate) fn of(alloc: Global, text: &'a [u8]) -> Result<Survey<'a>, AllocError>
        ensures survey { IfOk result (λ s. IsSurvey s) }
        ensures text { IfOk result (λ s. s.text.now ≡ text.now) }
    {
        Ok(Survey {
            text,
            names: names_of(alloc, text)?,
            count: count_of(text),
        })
    }
}
