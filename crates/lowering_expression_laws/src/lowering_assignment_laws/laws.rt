//! Laws of the code of locals and assignments, each the contract of a function that does nothing.

ghost use Rattle.lowering_expression_laws.specs.lowering_assignment_laws.Laws.{LocalsMeet, AssignmentsMeet};

/// The code of a local does what the local does, in a register or in memory.
pub fn locals_meet()
    ensures { LocalsMeet }
{}

/// The code of an assignment of a scalar does what the assignment does, where that of its parts does.
pub fn assignments_meet()
    ensures { AssignmentsMeet }
{}
