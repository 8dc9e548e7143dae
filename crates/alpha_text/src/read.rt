//! Texts are read.

ghost use Rattle.std.specs.Prelude.{◌≡◌, ◌≢◌, ◌≤◌, ◌<◌, ℕ, List, IfOk, IfErr, MatchResult, [], OnOk};
ghost use Rattle.alpha_isa.specs.Program.{most_bytes};
ghost use Rattle.alpha_items.specs.Assembly.{Assembly, IsWhole};
ghost use Rattle.alpha_text.specs.declared.fault.TextFault.TheVariants.{NoMemory};
ghost use Rattle.alpha_text.specs.Texts.{Texts, HasText};
ghost use Rattle.alpha_text.specs.Wrong.{Nothing, Text, Data, lines_of, NoneWrong};
ghost use Rattle.alpha_text.specs.Read.{IsTextFault};
ghost use Rattle.alpha_text.specs.model.Reaches.{Reaches, IsFaultFrom};

use crate::bytes::{read_bytes, read_fixes};
use crate::cursor::Cursor;
use crate::fault::TextFault;
use crate::items::read_items;
use crate::survey::Survey;
use alpha_isa::limits::MOST_BYTES;
use alpha_items::asm::Asm;
use alpha_items::item::{AsmItem, Fix};
use std::alloc::Global;

/// What the lines of a text say that are all in their forms.
#[derive(Drop)]
struct Parts {
    items: Vec<AsmItem>,
    /// How many bytes the data has.
    count: u64,
    bytes: Vec<u8>,
    fixes: Vec<Fix>,
}

/// Reads the first line.
fn read_head(lines: &mut Cursor<'_>) -> Result<(), TextFault>
    ensures read { OnOk result ((all : List (List ℕ)) → Reaches all Nothing lines.old (Text []) lines.new) }
    ensures fault { IfErr result (λ e. (all : List (List ℕ)) → IsFaultFrom all Nothing lines.old e) }
    ensures memory { IfErr result (λ e. e ≢ TextFault.NoMemory) }
{
    match lines.next_line() {
        None => Err(TextFault::Line {
            line: lines.next_number(),
        }),
        Some(line) if line == b".msa 1".as_slice() => Ok(()),
        Some(_) => Err(TextFault::Line {
            line: lines.count(),
        }),
    }
}

/// Reads the lines of a text, up to its first wrong one.
fn read_parts(alloc: Global, text: &[u8]) -> Result<Parts, TextFault>
    ensures read { IfOk result (λ p. NoneWrong text.now (Data p.items.items p.count p.bytes.items p.fixes.items)) }
    ensures fault { IfErr result (λ fault. IsTextFault text.now fault) }
{
    let survey = Survey::of(alloc, text)?;
    let mut lines = Cursor::new(text);
    read_head(&mut lines)?;
    let (items, count) = read_items(alloc, &mut lines, &survey)?;
    let bytes = read_bytes(alloc, &mut lines, count)?;
    let fixes = read_fixes(alloc, &mut lines, count)?;
    Ok(Parts {
        items,
        count,
        bytes,
        fixes,
    })
}

/// Refuses too many bytes of data.
fn within_limit(counted: u64) -> Result<(), TextFault>
    ensures within { OnOk result (counted ≤ most_bytes) }
    ensures beyond { IfErr result (λ fault. (fault ≡ TextFault.Data counted) × (most_bytes < counted)) }
{
    if counted > u64::from(MOST_BYTES) {
        Err(TextFault::Data { counted })
    } else {
        Ok(())
    }
}

/// The assembly whose text this is. `Line` comes exactly where a line is in no form where it stands, with the
/// first such line, and `Data` exactly where there is none and the data has more than 67,108,864 bytes, with
/// their number. What `print_asm` makes of an assembly is read as that assembly, unless memory is short.
pub fn read_asm(alloc: Global, text: &[u8]) -> Result<Asm, TextFault>
    ensures text { IfOk result (λ asm. Texts text.now asm) }
    ensures whole { IfOk result (λ asm. IsWhole asm) }
    ensures fields { IfOk result (λ asm. HasText asm) }
    ensures fault { IfErr result (λ fault. IsTextFault text.now fault) }
    ensures only { (asm : Assembly) → IsWhole asm → HasText asm → Texts text.now asm → MatchResult result
        (λ found. found ≡ asm) (λ fault. fault ≡ NoMemory) }
{
    let parts = read_parts(alloc, text)?;
    within_limit(parts.count)?;
    Ok(Asm::new(parts.items, parts.bytes, parts.fixes))
}
