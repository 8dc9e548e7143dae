//! The text of flow graphs.
//!
//! `specs/cfg_text/Text.antt` says what it is.

mod graphs;

pub use graphs::graph_text;
