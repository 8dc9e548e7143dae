//! Images as bytes, both ways.
//!
//! The format is defined in `alpha_isa` (`specs/ImageFormat.antt`; the table is in `docs/formats.md`), and
//! the place at which bytes stop being an image in `specs/ImageFault.antt`. [`image_bytes`] gives the bytes
//! of an image in version 2, and [`read_image`] reads an image of either version.
#![tactic(auto)]

pub mod laws;
mod read;
mod write;

pub use read::{ImageFault, read_image};
pub use write::image_bytes;
