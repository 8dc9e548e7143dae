//! The syntax trees of C units.
//!
//! Two trees are equal where they hold the same: their containers are those of `bk_containers`.
#![tactic(auto)]

pub mod declarations;
pub mod expressions;
mod height;
pub mod statements;
pub mod types;

pub use declarations::{External, FunctionEnd, Init, Storage, TranslationUnit};
pub use expressions::{AssignOp, BinaryOp, Expr, StepOp, UnaryOp};
pub use height::is_within_height;
pub use statements::{ForFirst, Label, LocalDeclarator, Section, Stmt};
pub use types::{BasicType, Constant, Declaration, Parameter, TypeName, TypeNode};
