//! The types that the parser makes: those that specifiers spell, and those that declarators make of them (C99 6.7.2
//! and 6.7.5).

mod shapes;
mod specifier_type;

pub use shapes::{
    comma_of, may_be_nameless, parameter_of, takes_name, with_shape, with_shapes, without_void,
};
pub use specifier_type::SpecifierType;
