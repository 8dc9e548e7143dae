//! The typing of whole units (C99 6.5 to 6.9): the first fault of a unit, or its typed tree, which is lawful.
#![tactic(auto)]

pub mod c_found_unit_laws;
pub mod c_object_count_laws;
pub mod c_typed_unit_laws;
pub mod c_unit_meaning_laws;
pub mod c_unit_object_laws;
pub mod c_unit_struct_laws;
pub mod c_unit_walk_laws;
mod faults;
pub mod laws;
mod units;

pub use faults::TypeFault;
pub use units::check;
