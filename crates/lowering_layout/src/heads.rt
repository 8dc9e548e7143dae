//! The loops that are open.

ghost use Rattle.std.specs.Prelude.{◌≡◌, [], ◌∷◌, OnOk};
ghost use Rattle.lowering_code.specs.Layout.{head_or_zero, outer_heads};

use std::alloc::{AllocError, Global};
use std::marker::Model;

/// The first blocks of the bodies of the loops that are open. Contracts see them from the inner one on.
#[derive(Drop)]
pub struct Heads {
    blocks: Vec<u32>,
}

impl Model for Heads {
    ghost use Rattle.std.specs.Prelude.{ℕ, List, reverse};

    ghost Value = { List ℕ };

    ghost view = { λ h. reverse h.blocks.items };
}

impl Heads {
    /// No loop. Takes no memory.
    pub fn new(alloc: Global) -> Heads
        ensures { result ≡ [] }
    {
        Heads {
            blocks: Vec::new(alloc),
        }
    }

    /// A loop begins with a block. It fails only where memory is short.
    pub fn push(&mut self, block: u32) -> Result<(), AllocError>
        ensures { OnOk result (self.new ≡ block ∷ self.old) }
    {
        self.blocks.push(block)?;
        Ok(())
    }

    /// The inner loop ends. Gives its first block, or 0 where there is no loop.
    pub fn pop(&mut self) -> u32
        ensures block { result ≡ head_or_zero self.old }
        ensures rest { self.new ≡ outer_heads self.old }
    {
        match self.blocks.pop() {
            Some(block) => block,
            None => 0,
        }
    }
}
