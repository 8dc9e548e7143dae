//! The bytes of texts and of string literals.

mod texts;

pub use texts::{read_text, read_texts};
