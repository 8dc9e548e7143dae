//! The division routines, run by the machine.

use crate::runs::image_of;
use alpha_isa::encode::encode;
use alpha_isa::insn::BranchOp;
use alpha_items::item::AsmItem;
use alpha_rt::items::routine_items;
use alpha_run::ending::Ending;
use alpha_run::machine::Machine;
use anyhow::{Context, Result, bail};
use bk_io::empty::EmptySource;
use bk_io::memory::MemSink;
use row_sheets::number::quad;
use std::alloc::Global;

/// What calls a routine: it loads the operands from the data before the call, and behind it puts the eight
/// bytes of register 27, the lowest first.
const FRAME: [u32; 14] = [
    0x243f_0002, // ldah $1, 2($31)
    0xa701_0000, // ldq $24, 0($1)
    0xa721_0008, // ldq $25, 8($1)
    0x0000_0000, // bsr $23, to the routine
    0x20df_0008, // lda $6, 8($31)
    0x47fb_0410, // bis $31, $27, $16
    0x201f_0002, // lda $0, 2($31)
    0x0000_0083, // call_pal 0x83
    0x4b61_169b, // srl $27, 8, $27
    0x40c0_3526, // subq $6, 1, $6
    0xf4df_fffa, // bne $6, .+4+4*(-6)
    0x47ff_0410, // bis $31, $31, $16
    0x201f_0001, // lda $0, 1($31)
    0x0000_0083, // call_pal 0x83
];

/// The words of the frame, and the one of the call in it.
const FRAME_WORDS: u32 = 14;

const CALL: u32 = 3;

/// The steps of the frame, and those that a routine may take.
const BUDGET: u64 = 4 + 599 + 52;

/// A label, and the word that it stands before.
#[derive(Clone, Copy, Debug)]
struct Place {
    label: u32,
    word: u32,
}

/// The places of the labels of items, of which the first stands at a word.
fn places(alloc: Global, items: &[AsmItem], start: u32) -> Result<Vec<Place>> {
    let mut places = Vec::new(alloc);
    let mut word = start;
    for item in items {
        match item {
            AsmItem::Label(label) => places.push(Place {
                label: *label,
                word,
            })?,
            _ => word = word.saturating_add(1),
        }
    }
    Ok(places)
}

/// The word of a label.
fn place_of(places: &[Place], label: u32) -> Result<u32> {
    for place in places {
        if place.label == label {
            return Ok(place.word);
        }
    }
    bail!("no label {label}")
}

/// The word of a short branch.
fn branch_word(op: BranchOp, ra: u8, here: u32, there: u32) -> Result<u32> {
    let opcode: u32 = match op {
        BranchOp::Br => 0x30,
        BranchOp::Bsr => 0x34,
        BranchOp::Beq => 0x39,
        BranchOp::Bne => 0x3d,
        _ => bail!("no branch of the routines"),
    };
    let displacement = there.wrapping_sub(here).wrapping_sub(1) & 0x1f_ffff;
    Ok((opcode << 26) | ((u32::from(ra) & 31) << 21) | displacement)
}

/// The words of the frame and of the routines, of which it calls the one with a label.
fn words_of(alloc: Global, routine: u32) -> Result<Vec<u32>> {
    let items = routine_items(alloc)?;
    let mut words = FRAME.to_vec(alloc)?;
    let places = places(alloc, items.as_slice(), FRAME_WORDS)?;
    let entry = place_of(places.as_slice(), routine)?;
    if let Some(call) = words.get_mut(CALL as usize) {
        *call = branch_word(BranchOp::Bsr, 23, CALL, entry)?;
    }
    let mut here = FRAME_WORDS;
    for item in &items {
        let word = match item {
            AsmItem::Label(_label) => continue,
            AsmItem::Plain(insn) => encode(insn),
            AsmItem::Branch { op, ra, label } => {
                let there = place_of(places.as_slice(), *label)?;
                branch_word(*op, *ra, here, there)?
            }
            _ => bail!("no item of the routines"),
        };
        words.push(word)?;
        here = here.saturating_add(1);
    }
    Ok(words)
}

/// What a routine answers: the word in register 27, or how the run ends.
fn quotient(alloc: Global, routine: u32, dividend: u64, divisor: u64) -> Result<String> {
    let words = words_of(alloc, routine)?;
    let mut bytes = Vec::new(alloc);
    bytes.extend_from_slice(&dividend.to_le_bytes())?;
    bytes.extend_from_slice(&divisor.to_le_bytes())?;
    let image = image_of(words, bytes, 0)?;
    let mut machine = Machine::load(alloc, &image, 4096)?;
    let mut out = MemSink::new(alloc, 64, Vec::new(alloc))?;
    let ending = machine.run(BUDGET, &mut EmptySource, &mut out);
    let shown = match (ending, out.taken_bytes()) {
        (Ending::Done { status: 0 }, [a, b, c, d, e, f, g, h]) => {
            let word = u64::from_le_bytes([*a, *b, *c, *d, *e, *f, *g, *h]);
            format!(in alloc; "{word:x}")?
        }
        (Ending::Trap { code }, []) => format!(in alloc; "trap-{code}")?,
        (ending, _put) => format!(in alloc; "{ending:?}")?,
    };
    Ok(shown)
}

/// The low 32 bits of a word with their sign in all bits above.
fn extend_sign(word: u64) -> u64 {
    let low = (word & 0xffff_ffff) as u32;
    i64::from(low.cast_signed()).cast_unsigned()
}

/// What all routines answer to a pair of words. Those of 32 bits are given the low bits, extended.
pub fn answer(alloc: Global, given: &str) -> Result<Vec<u8>> {
    let (dividend, divisor) = given.split_once(' ').context("a row has two words")?;
    let dividend = quad(dividend)?;
    let divisor = quad(divisor)?;
    let mut shown = String::new(alloc);
    for routine in 1u32..9 {
        let answer = if routine <= 4 {
            quotient(alloc, routine, dividend, divisor)?
        } else {
            quotient(alloc, routine, extend_sign(dividend), extend_sign(divisor))?
        };
        if routine > 1 {
            shown.push(' ')?;
        }
        shown.push_str(&answer)?;
    }
    shown.push('\n')?;
    Ok(shown.into_bytes())
}
