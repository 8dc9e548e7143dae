//! Single steps of the machine.

use crate::runs::image_of;
use alpha_run::ending::Ending;
use alpha_run::machine::Machine;
use anyhow::{Result, bail};
use bk_io::empty::EmptySource;
use bk_io::memory::MemSink;
use row_sheets::number::{quad, word};
use std::alloc::Global;

/// The program that a step stands in, as `tools/alpha_steps.py frame` writes it.
const FRAME: [u32; 30] = [
    0x20bf_0002, // lda $5, 2($31)
    0xc3e0_0006, // br $31, .+4+4*6
    0x243f_0002, // ldah $1, 2($31)
    0xa441_0008, // ldq $2, 8($1)
    0xa461_0010, // ldq $3, 16($1)
    0xa481_0018, // ldq $4, 24($1)
    0x0000_0000, // call_pal 0
    0x20bf_0001, // lda $5, 1($31)
    0x47e5_0410, // bis $31, $5, $16
    0x201f_0002, // lda $0, 2($31)
    0x0000_0083, // call_pal 0x83
    0x20df_0008, // lda $6, 8($31)
    0x47e4_0410, // bis $31, $4, $16
    0x201f_0002, // lda $0, 2($31)
    0x0000_0083, // call_pal 0x83
    0x4881_1684, // srl $4, 8, $4
    0x40c0_3526, // subq $6, 1, $6
    0xf4df_fffa, // bne $6, .+4+4*(-6)
    0x243f_0002, // ldah $1, 2($31)
    0xa481_0000, // ldq $4, 0($1)
    0x20df_0008, // lda $6, 8($31)
    0x47e4_0410, // bis $31, $4, $16
    0x201f_0002, // lda $0, 2($31)
    0x0000_0083, // call_pal 0x83
    0x4881_1684, // srl $4, 8, $4
    0x40c0_3526, // subq $6, 1, $6
    0xf4df_fffa, // bne $6, .+4+4*(-6)
    0x47ff_0410, // bis $31, $31, $16
    0x201f_0001, // lda $0, 1($31)
    0x0000_0083, // call_pal 0x83
];

/// The word of the frame in whose place the step stands, and the one where a run begins.
const STEP: usize = 6;

const ENTRY: u32 = 2;

/// What a step leaves: where it goes on, register 4 and memory, or how the run ends there.
fn step_text(alloc: Global, ending: Ending, put: &[u8]) -> Result<String> {
    let [place, register @ .., a, b, c, d, e, f, g, h] = put else {
        return Ok(format!(in alloc; "{ending:?}\n")?);
    };
    let [i, j, k, l, m, n, o, p] = register else {
        return Ok(format!(in alloc; "{ending:?}\n")?);
    };
    let register = u64::from_le_bytes([*i, *j, *k, *l, *m, *n, *o, *p]);
    let memory = u64::from_le_bytes([*a, *b, *c, *d, *e, *f, *g, *h]);
    let place = match *place {
        0 => "ahead",
        1 => "next",
        _ => "behind",
    };
    Ok(format!(in alloc; "{place} {register:x} {memory:x}\n")?)
}

/// What the step of a word leaves, where `data` has memory and the words of registers 2, 3 and 4.
fn step(alloc: Global, word: u32, data: [u64; 4]) -> Result<String> {
    let mut words = FRAME.to_vec(alloc)?;
    if let Some(place) = words.get_mut(STEP) {
        *place = word;
    }
    let mut bytes = Vec::new(alloc);
    for quad in data {
        bytes.extend_from_slice(&quad.to_le_bytes())?;
    }
    let image = image_of(words, bytes, ENTRY)?;
    let mut machine = Machine::load(alloc, &image, 4096)?;
    let mut out = MemSink::new(alloc, 64, Vec::new(alloc))?;
    let ending = machine.run(1000, &mut EmptySource, &mut out);
    step_text(alloc, ending, out.taken_bytes())
}

/// What the step of a row leaves.
pub fn answer(alloc: Global, given: &str) -> Result<Vec<u8>> {
    let parts: Vec<&str> = given.split(' ').collect(alloc)?;
    let [step_word, second, third, fourth, memory] = parts.as_slice() else {
        bail!("a step has five words");
    };
    let data = [quad(memory)?, quad(second)?, quad(third)?, quad(fourth)?];
    let left = step(alloc, word(step_word)?, data)?;
    Ok(left.into_bytes())
}
