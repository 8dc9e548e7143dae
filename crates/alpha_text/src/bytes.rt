//! The lines of the data are judged.

ghost use Rattle.std.specs.Prelude.{◌≡◌, ◌<◌, ◌≤◌, ◌+◌, ◌^◌, ◌↔◌, ℕ, List, [], IfOk, IfErr, IsTrue, None, option_map, length};
ghost use Rattle.alpha_items.specs.declared.item.AsmItem.{AsmItem as Item};
ghost use Rattle.alpha_items.specs.Assembly.{IsFix};
ghost use Rattle.alpha_text.specs.Wrong.{Data, lines_of, is_ended, IsBehind, WellFrom};
ghost use Rattle.alpha_text.specs.model.Reaches.{Reaches, IsFaultFrom};
ghost use Rattle.alpha_text.specs.model.Judged as model;

use crate::cursor::Cursor;
use crate::fault::{TextFault, said_or_fault};
use alpha_items::item::Fix;
use alpha_lines::data::{read_fix, read_hex};
use std::alloc::{AllocError, Global};

/// How many bytes of the data stand on a line.
const ROW: u64 = 32;

/// The bytes of the next line, if it has as many as may stand behind `done` of `count` bytes.
fn next_row(
    alloc: Global,
    line: &[u8],
    done: usize,
    count: u64,
) -> Result<Option<Vec<u8>>, AllocError>
    requires { done < count }
    ensures { IfOk result (λ found. model.IsRow line.now done count (option_map (λ v. v.items) found)) }
{
    let due = (count - done as u64).min(ROW);
    let Some(row) = read_hex(alloc, line)? else {
        return Ok(None);
    };
    if row.len() as u64 == due {
        Ok(Some(row))
    } else {
        Ok(None)
    }
}

/// Reads the lines of so many bytes.
pub(crate) fn read_bytes(
    alloc: Global,
    lines: &mut Cursor<'_>,
    count: u64,
) -> Result<Vec<u8>, TextFault>
    ensures read { IfOk result (λ v. (length v.items ≡ count) × ((all : List (List ℕ)) (items : List Item) →
        Reaches all (Data items count [] []) lines.old (Data items count v.items []) lines.new)) }
    ensures fault { IfErr result (λ e. (all : List (List ℕ)) (items : List Item) →
        IsFaultFrom all (Data items count [] []) lines.old e) }
{
    let mut bytes: Vec<u8> = Vec::new(alloc);
    'rows: while (bytes.len() as u64) < count {
        let line = lines.due_line()?;
        let found = next_row(alloc, line, bytes.len(), count);
        let row = said_or_fault(found, lines.count())?;
        bytes.extend_from_slice(row.as_slice())?;
    }
    Ok(bytes)
}

/// Whether a fix and what it names are within so many bytes.
fn is_within(fix: &Fix, count: u64) -> bool
    ensures { IsTrue result ↔ IsFix count fix.now }
{
    u64::from(fix.at) + 8 <= count && u64::from(fix.offset) <= count
}

/// Whether a fix begins at least 8 behind another.
fn is_apart(last: Fix, fix: Fix) -> bool
    ensures { IsTrue result ↔ (last.at + 8 ≤ fix.at) }
{
    u64::from(last.at) + 8 <= u64::from(fix.at)
}

/// Whether a fix begins at least 8 behind the last one.
fn is_behind(fixes: &[Fix], fix: &Fix) -> bool
    ensures { IsTrue result ↔ IsBehind fixes.now fix.now }
{
    match fixes.last() {
        Some(last) => is_apart(*last, *fix),
        None => true,
    }
}

/// The fix of the next line, if it may stand behind the others.
fn next_fix(line: &[u8], fixes: &[Fix], count: u64) -> Option<Fix>
    ensures { model.IsFixLine line.now fixes.now count result }
{
    let fix = read_fix(line)?;
    if is_within(&fix, count) && is_behind(fixes, &fix) {
        Some(fix)
    } else {
        None
    }
}

/// The fix of the line with this number, which has to be one that may stand behind the others.
fn due_fix(line: &[u8], fixes: &[Fix], count: u64, number: u64) -> Result<Fix, TextFault>
    ensures fix { IfOk result (λ fix. model.HasFix line.now fixes.now count fix) }
    ensures none { IfErr result (λ fault. (fault ≡ TextFault.Line number) × model.IsFixLine line.now fixes.now count None) }
{
    match next_fix(line, fixes, count) {
        Some(fix) => Ok(fix),
        None => Err(TextFault::Line { line: number }),
    }
}

/// Reads the lines of fixes, up to the end of the text.
pub(crate) fn read_fixes(
    alloc: Global,
    lines: &mut Cursor<'_>,
    count: u64,
) -> Result<Vec<Fix>, TextFault>
    ensures read { IfOk result (λ v. (all : List (List ℕ)) (items : List Item) (bytes : List ℕ) →
        length bytes ≡ count →
        WellFrom all (Data items count bytes []) (lines_of lines.old.0) (is_ended lines.old.0)
        (Data items count bytes v.items)) }
    ensures fault { IfErr result (λ e. (all : List (List ℕ)) (items : List Item) (bytes : List ℕ) →
        length bytes ≡ count → IsFaultFrom all (Data items count bytes []) lines.old e) }
{
    let mut fixes = Vec::new(alloc);
    while let Some(line) = lines.next_line() {
        let fix = due_fix(line, fixes.as_slice(), count, lines.count())?;
        fixes.push(fix)?;
    }
    lines.expect_end()?;
    Ok(fixes)
}
