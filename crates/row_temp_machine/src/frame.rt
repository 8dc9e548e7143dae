//! A call: where it stands, and what its temporaries and registers hold.

use alloc_model::allocation::Transfer;
use anyhow::Result;
use std::alloc::Global;
use temp_ir::insn::TempInsn;

/// What holds something in a call.
#[derive(Clone, Copy, Debug, PartialEq, Eq)]
pub enum CallPlace {
    Register(u8),
    /// A temporary, or its slot.
    Temp(u32),
    Incoming(u32),
    Outgoing(u32),
}

/// What a place holds: a word, or nothing.
pub type CallContent = Option<u64>;

/// A place and what it holds.
#[derive(Clone, Copy, Debug)]
pub struct PlaceContent {
    place: CallPlace,
    content: CallContent,
}

/// A call: where it stands, and what its places hold.
#[derive(Drop)]
pub struct CallFrame {
    pub function: u32,
    pub block: u32,
    pub at: u32,
    held: Vec<PlaceContent>,
    /// The places of its objects.
    pub objects: Vec<u64>,
    /// The place in memory from which on its objects lie.
    pub base: u64,
}

/// Whether a call of a function ends a register.
fn is_ended_by_call(register: u8) -> bool {
    register <= 8 || (register >= 16 && register <= 29)
}

impl CallFrame {
    /// A call of a function at its entry, whose objects begin at a place and are not yet made.
    pub fn new(alloc: Global, function: u32, base: u64) -> CallFrame {
        CallFrame {
            function,
            block: 0,
            at: 0,
            held: Vec::new(alloc),
            objects: Vec::new(alloc),
            base,
        }
    }

    /// What a place holds.
    pub fn get(&self, place: CallPlace) -> CallContent {
        for held in &self.held {
            if held.place == place {
                return held.content;
            }
        }
        None
    }

    /// A place holds something from now on.
    pub fn put(&mut self, place: CallPlace, content: CallContent) -> Result<()> {
        for held in &mut self.held {
            if held.place == place {
                held.content = content;
                return Ok(());
            }
        }
        self.held.push(PlaceContent { place, content })?;
        Ok(())
    }

    /// Copies what a transfer says.
    pub fn move_by(&mut self, transfer: Transfer) -> Result<()> {
        let (from, to) = match transfer {
            Transfer::Store { temp, reg } => (CallPlace::Register(reg), CallPlace::Temp(temp)),
            Transfer::Load { temp, reg } => (CallPlace::Temp(temp), CallPlace::Register(reg)),
            Transfer::Shift { from, to, .. } => (
                CallPlace::Register(from),
                CallPlace::Register(to),
            ),
        };
        let content = self.get(from);
        self.put(to, content)
    }

    /// What an instruction ends is lost: the argument places of a call, and registers where these hold temporaries.
    pub fn end(&mut self, insn: &TempInsn, is_placed: bool) {
        for held in &mut self.held {
            let is_lost = match (insn, held.place) {
                (TempInsn::Call { .. }, CallPlace::Outgoing(_)) => true,
                (TempInsn::Call { .. }, CallPlace::Register(register)) => {
                    is_placed && is_ended_by_call(register)
                }
                (TempInsn::Divide { .. }, CallPlace::Register(register)) => {
                    is_placed && (register == 23 || register == 27 || register == 28)
                }
                _ => false,
            };
            if is_lost {
                held.content = None;
            }
        }
    }
}
