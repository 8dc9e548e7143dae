//! Laws, each the contract of a function that does nothing.

ghost use Rattle.frame_steps.specs.item_steps.Standing.{ItemsStand, LabelsStand, LabelsAreWords, LabelsStandAhead, PartsStand};
ghost use Rattle.frame_steps.specs.item_steps.Steps.{ImageStepsAddUp, PlainSteps, PlainEnds, AddressesStep, BranchesStep};

/// The items of an assembly stand in its image, behind each label too.
pub fn items_stand()
    ensures items { ItemsStand }
    ensures labels { LabelsStand }
    ensures words { LabelsAreWords }
    ensures ahead { LabelsStandAhead }
    ensures parts { PartsStand }
{}

/// The machine does each item that stands where it is, and comes to the next one or to the label of a branch.
pub fn items_step()
    ensures sum { ImageStepsAddUp }
    ensures plain { PlainSteps }
    ensures ends { PlainEnds }
    ensures addresses { AddressesStep }
    ensures branches { BranchesStep }
{}
