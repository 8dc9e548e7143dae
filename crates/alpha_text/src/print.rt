//! Assemblies are printed.

ghost use Rattle.std.specs.Prelude.{◌≡◌, ◌++◌, IfOk, OnOk, flat_map};
ghost use Rattle.alpha_lines.specs.Lines.{item_line, fix_line};
ghost use Rattle.alpha_text.specs.Texts.{Texts, with_line_feed, ended_lines, hex_lines, asm_text};

use alpha_items::asm::Asm;
use alpha_items::item::{AsmItem, Fix};
use alpha_lines::print::{push_data, push_fix, push_hex, push_item};
use std::alloc::{AllocError, Global};

/// How many bytes of the data stand on a line.
const ROW: usize = 32;

/// Appends the lines of items.
fn push_items(text: &mut Vec<u8>, items: &[AsmItem]) -> Result<(), AllocError>
    ensures { OnOk result (text.new.items ≡ text.old.items ++ flat_map (λ i. with_line_feed (item_line i)) items.now) }
{
    for item in items {
        push_item(text, item)?;
        text.push(b'\n')?;
    }
    Ok(())
}

/// Appends the lines of the data's bytes.
fn push_rows(text: &mut Vec<u8>, bytes: &[u8]) -> Result<(), AllocError>
    ensures { OnOk result (text.new.items ≡ text.old.items ++ ended_lines (hex_lines bytes.now)) }
{
    let mut rest = bytes;
    while !rest.is_empty() {
        let (row, behind) = rest.split_at(rest.len().min(ROW));
        push_hex(text, row)?;
        text.push(b'\n')?;
        rest = behind;
    }
    Ok(())
}

/// Appends the lines of fixes.
fn push_fixes(text: &mut Vec<u8>, fixes: &[Fix]) -> Result<(), AllocError>
    ensures { OnOk result (text.new.items ≡ text.old.items ++ flat_map (λ fix. with_line_feed (fix_line fix)) fixes.now) }
{
    for fix in fixes {
        push_fix(text, fix)?;
        text.push(b'\n')?;
    }
    Ok(())
}

/// Appends the text of an assembly with these items, data and fixes.
#[tactic(auto, using(crate::proofs::Printed::asm_pushed))]
fn push_asm(
    text: &mut Vec<u8>,
    items: &[AsmItem],
    bytes: &[u8],
    fixes: &[Fix],
) -> Result<(), AllocError>
    ensures { OnOk result
        (text.new.items ≡ text.old.items
        ++ asm_text (record { items = items.now; bytes = bytes.now; fixes = fixes.now })) }
{
    text.extend_from_slice(b".msa 1\n")?;
    push_items(text, items)?;
    push_data(text, bytes.len() as u64)?;
    text.push(b'\n')?;
    push_rows(text, bytes)?;
    push_fixes(text, fixes)
}

/// The text of an assembly. It fails only where memory is short.
pub fn print_asm(alloc: Global, asm: &Asm) -> Result<Vec<u8>, AllocError>
    ensures { IfOk result (λ text. Texts text.items asm.now) }
{
    let mut text = Vec::new(alloc);
    push_asm(
        &mut text,
        asm.items.as_slice(),
        asm.bytes.as_slice(),
        asm.fixes.as_slice(),
    )?;
    Ok(text)
}
