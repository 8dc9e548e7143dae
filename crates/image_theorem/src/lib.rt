//! The theorem of images: the image of an assembly with the items of a program, the start piece and the data behaves as
//! the program.
#![tactic(auto)]

pub mod flat_starts;
pub mod image_runs;
pub mod program_images;
pub mod routine_places;
pub mod same_runs;
