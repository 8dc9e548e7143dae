//! Laws, each the contract of a function that does nothing.

ghost use Rattle.image_assembly_laws.specs.allocation_laws.Laws.{AllocationsStandByNumber, AllocationsFit, LabelsAreFew};
ghost use Rattle.image_assembly_laws.specs.allocation_laws.Laws.{AllocationsCanBeAssembled, AllocationsAreNear, AsManyAreLaidOut};

/// The allocation with a number is one of the function with that number.
pub fn allocations_stand_by_number()
    ensures { AllocationsStandByNumber }
{}

/// Allocations of the functions of a program have its names and its code, and each fits it, where the functions have
/// frames.
pub fn allocations_fit()
    ensures { AllocationsFit }
{}

/// Their labels have 32 bits, where there are few blocks in all.
pub fn labels_are_few()
    ensures { LabelsAreFew }
{}

/// They can be assembled, where their names can be written.
pub fn allocations_can_be_assembled()
    ensures { AllocationsCanBeAssembled }
{}

/// They name no argument places but those of the functions.
pub fn allocations_are_near()
    ensures { AllocationsAreNear }
{}

/// One function is laid out for each allocation.
pub fn layout_keeps_count()
    ensures { AsManyAreLaidOut }
{}
