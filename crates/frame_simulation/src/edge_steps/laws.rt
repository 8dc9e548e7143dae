//! Laws, each the contract of a function that does nothing.

ghost use Rattle.frame_simulation.specs.edge_steps.Edges.{EdgesAreDone, JumpsAreDone, EndsAreDone, BlocksAreEntered};

/// The machine goes from block to block, and does the transfers of the edge.
pub fn edges_are_done()
    ensures edges { EdgesAreDone }
    ensures jumps { JumpsAreDone }
    ensures ends { EndsAreDone }
    ensures blocks { BlocksAreEntered }
{}
