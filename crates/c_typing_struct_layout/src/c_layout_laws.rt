//! What the layout of lawful structs says of alignments, sizes and members.

pub mod laws;
