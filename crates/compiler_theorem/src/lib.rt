//! The theorem of the compiler, as `specs/Correct.antt` states it of an image, and that an image which is made of a unit
//! behaves as the unit does.
#![tactic(auto)]

pub mod refined_code;
pub mod same_behaviour;
pub mod unit_images;
