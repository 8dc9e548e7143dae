//! An image and a program that end alike: each ending of the one is that of the other, and the image is never stuck.

pub mod laws;

pub use crate::program_images as programs;
