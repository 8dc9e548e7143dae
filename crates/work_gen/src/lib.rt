//! The generator of C texts: a seed and a size give a text of so many functions and a `main` that calls them.
#![tactic(auto)]

ghost use Rattle.std.specs.Prelude.{◌≡◌, IfOk, IfErr};
ghost use Rattle.bk_memory.specs.Shortage.{MemoryIsShort};
ghost use Rattle.work_gen.specs.Generator.{generated_text};

use crate::lines::{put_functions, put_main};
use bk_memory::memory_is_short;
use std::alloc::{AllocError, Global};

mod lines;

/// The text that a seed and a size give. It fails only where memory is short.
pub fn generate(alloc: Global, seed: u32, size: u32) -> Result<Vec<u8>, AllocError>
    ensures text { IfOk result (λ text. text.items ≡ generated_text seed size) }
    ensures short { IfErr result (λ _. MemoryIsShort) }
{
    match text_of(alloc, seed, size) {
        Ok(text) => Ok(text),
        Err(refusal) => {
            memory_is_short(refusal);
            Err(refusal)
        }
    }
}

/// The text, with the error of an allocation as it comes.
fn text_of(alloc: Global, seed: u32, size: u32) -> Result<Vec<u8>, AllocError>
    ensures { IfOk result (λ text. text.items ≡ generated_text seed size) }
{
    let mut text = String::new(alloc);
    put_functions(&mut text, seed, size)?;
    put_main(&mut text, size)?;
    Ok(text.into_bytes())
}
