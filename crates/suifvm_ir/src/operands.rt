//! Lists of registers, of which short ones take no memory.

ghost use Rattle.std.specs.Prelude.{◌≡◌, [], ◌∷◌, ◌++◌, length, OnOk, OnErr, IfOk};

use smallvec::SmallVec;
use std::alloc::{AllocError, Global};
use std::marker::Model;

/// The registers that a call hands over, in order. Contracts see their list.
#[derive(Drop)]
pub struct ArgumentRegisters {
    registers: SmallVec<u32, 4>,
}

impl Model for ArgumentRegisters {
    ghost use Rattle.std.specs.Prelude.{List, ℕ};

    ghost Value = { List ℕ };

    ghost view = { λ o. o.registers.items };
}

impl ArgumentRegisters {
    /// No register.
    pub fn new(alloc: Global) -> ArgumentRegisters
        ensures { result ≡ [] }
    {
        ArgumentRegisters {
            registers: SmallVec::new(alloc),
        }
    }

    /// These registers. It fails only where memory is short.
    pub fn from_slice(alloc: Global, registers: &[u32]) -> Result<ArgumentRegisters, AllocError>
        ensures { IfOk result (λ o. o ≡ registers.now) }
    {
        Ok(ArgumentRegisters {
            registers: SmallVec::from_slice(alloc, registers)?,
        })
    }

    /// The registers.
    pub fn as_slice(&self) -> &[u32]
        ensures { result.now ≡ self.now }
    {
        self.registers.as_slice()
    }

    /// The number of registers.
    pub fn len(&self) -> usize
        ensures { result ≡ length self.now }
    {
        self.registers.len()
    }

    /// Puts a register behind the others. Where memory is short the list stays as it was.
    pub fn push(&mut self, register: u32) -> Result<(), AllocError>
        ensures ok { OnOk result (self.new ≡ self.old ++ register ∷ []) }
        ensures err { OnErr result (self.new ≡ self.old) }
    {
        self.registers.push(register)?;
        Ok(())
    }
}
