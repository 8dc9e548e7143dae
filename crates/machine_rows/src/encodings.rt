//! Words with their instructions, both ways.

use alpha_isa::decode::{decode, decode_encoded};
use alpha_isa::encode::encode;
use anyhow::Result;
use row_sheets::number::word;
use std::alloc::Global;

/// The instruction that a word stands for. Where it is encoded as another word, that one follows.
pub fn instruction(alloc: Global, given: &str) -> Result<Vec<u8>> {
    let word = word(given)?;
    let Some(insn) = decode(word) else {
        return Ok("none\n".to_string(alloc)?.into_bytes());
    };
    let mut shown = format!(in alloc; "{:?}\n", insn.fields)?;
    let encoded = encode(&insn);
    if encoded != word || decode_encoded(&insn) != Some(insn) {
        shown.push_str(&format!(in alloc; "which is encoded as {encoded:08x}\n")?)?;
    }
    Ok(shown.into_bytes())
}
