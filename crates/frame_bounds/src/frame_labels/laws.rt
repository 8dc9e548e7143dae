//! Laws of labels, each the contract of a function that does nothing.

ghost use Rattle.frame_bounds.specs.frame_labels.Labels.{LabelsAreNamed, LabelsDiffer, LabelsAreUsable};

/// The items of a function name its entry, and labels from its first one on for its blocks and its exit part, each
/// once; they use its own, those of the division routines, and those of functions that it calls.
pub fn labels_are_own()
    ensures named { LabelsAreNamed }
    ensures differ { LabelsDiffer }
    ensures usable { LabelsAreUsable }
{}
