//! The typed trees of C units: what a unit is once each name is known, each expression has its type and each
//! conversion is written.
//!
//! Contracts speak of plain data (`specs/Types.antt`, `specs/Expressions.antt`, `specs/Statements.antt`), which
//! `specs/View.antt` reads off the trees.
#![tactic(auto)]

pub mod c_lawful_unit;
pub mod c_typed_height;
mod copy;
mod copy_statements;
mod copy_units;
pub mod expressions;
pub mod layout;
mod make;
pub mod statements;
pub mod types;
pub mod units;

pub use copy_units::copy_unit;
pub use expressions::{Builtin, Callee, TExpr};
pub use statements::{TFirst, TLabel, TLocal, TSection, TStmt};
pub use types::{CType, Member, StructDef, is_same_type};
pub use units::{Local, TypedFn, TypedUnit};
