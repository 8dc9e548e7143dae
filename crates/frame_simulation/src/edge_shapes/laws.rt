//! Laws, each the contract of a function that does nothing.

ghost use Rattle.frame_simulation.specs.edge_shapes.Edges.{TargetsFit, EndsFit, TopsFit};

/// The transfers of the edges of a faithful plan can be done in the frame of its function.
pub fn edges_fit()
    ensures targets { TargetsFit }
    ensures ends { EndsFit }
    ensures tops { TopsFit }
{}
