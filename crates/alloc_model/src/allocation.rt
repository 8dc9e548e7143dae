//! Allocations: which register or slot each temporary stands in, and what moves it.

use bk_containers::Seq;
use pass_core::function::Func;
use temp_ir::insn::TempInsn;

/// Where a temporary stands.
#[derive(Clone, Copy, Debug, PartialEq, Eq)]
pub enum Loc {
    /// In the register with a number.
    Reg(u8),
    /// In the slot of the temporary with a number.
    Slot(u32),
}

/// A temporary with the place where it stands.
#[derive(Clone, Copy, Debug, PartialEq, Eq)]
pub struct TempPlace {
    pub temp: u32,
    pub place: Loc,
}

/// A copy of a temporary from one of its places to another.
#[derive(Clone, Copy, Debug, PartialEq, Eq)]
pub enum Transfer {
    /// From a register to its slot.
    Store { temp: u32, reg: u8 },
    /// From its slot to a register.
    Load { temp: u32, reg: u8 },
    /// From a register to another one.
    Shift { temp: u32, from: u8, to: u8 },
}

/// What is done on the way from the end of a block to the top of another.
#[derive(Drop)]
pub struct EdgeCode {
    pub from: u32,
    pub to: u32,
    pub code: Seq<Transfer>,
}

/// What an allocator did, for those who study it.
#[derive(Clone, Copy, Debug, PartialEq, Eq)]
pub enum Event {
    /// It comes to the instruction with a number in linear order.
    Visit(u32),
    /// A temporary gets a register.
    Assign { temp: u32, reg: u8 },
    /// A temporary leaves its register for its slot.
    Evict { temp: u32, reg: u8 },
    Store { temp: u32, reg: u8 },
    Load { temp: u32, reg: u8 },
    Shift { temp: u32, from: u8, to: u8 },
    /// A temporary is written in its register.
    Write { temp: u32, reg: u8 },
}

/// A function with the places of its temporaries. Instructions are counted in linear order, which is that of the
/// blocks by their numbers.
#[derive(Drop)]
pub struct Allocation {
    pub func: Func<TempInsn>,
    /// For each block, the places at its top of temporaries that are live there. One that is not named has its slot.
    pub top: Seq<Seq<TempPlace>>,
    /// For each block, the places at its end.
    pub bottom: Seq<Seq<TempPlace>>,
    /// For each instruction, what is done before it.
    pub at: Seq<Seq<Transfer>>,
    /// For each instruction, the registers of the temporaries that it reads, in order, then of those that it writes.
    pub regs: Seq<Seq<u8>>,
    /// For each edge, by rising `from` and then `to`, what is done on it.
    pub edges: Seq<EdgeCode>,
    pub journal: Seq<Event>,
}
