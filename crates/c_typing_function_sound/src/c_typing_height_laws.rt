//! The laws that typed functions are at most three times as high as their trees, and have the names of definitions.

pub mod c_expression_height_laws;
pub mod c_function_name_laws;
pub mod c_statement_height_laws;
pub mod c_unit_height_laws;
