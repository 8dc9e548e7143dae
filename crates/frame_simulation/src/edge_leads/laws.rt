//! Laws, each the contract of a function that does nothing.

ghost use Rattle.frame_simulation.specs.edge_leads.Leads.{SplitBranchesGoApart, AllEdgesLead};

/// Where no edge of a function has to be split, each leads to a block that is there, with its transfers on the way.
pub fn edges_lead()
    ensures apart { SplitBranchesGoApart }
    ensures edges { AllEdgesLead }
{}
