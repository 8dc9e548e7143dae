//! A memory of objects: live objects of cells, pointers into them, and the faults of each access.
//!
//! An object has cells, and a cell is a byte, a part of a pointer, or nothing. A pointer is the number of
//! an object and an offset, and never a number of the machine. So an access that C99 leaves undefined is
//! always a fault here, and never a value.
//!
//! `specs/Memory.antt` defines what each call answers, and the contracts of `Mem` say that it does.
//! `specs/World.antt` defines the world in which programs run over such a memory.
#![tactic(auto)]

pub mod cells;
mod entries;
pub mod laws;
pub mod memory;
mod rows;
mod table;
pub mod value;
