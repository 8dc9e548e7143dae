//! Laws, each the contract of a function that does nothing.

ghost use Rattle.image_assembly_laws.specs.Laws.{AssembliesAreWhole, AssembliesAreExact, AssembliesHavePrograms, ProgramsAreAllocated};

/// The assembly of functions that are laid out is whole: it has an image, unless its text is too long.
pub fn assemblies_are_whole()
    ensures { AssembliesAreWhole }
{}

/// It is exactly the assembly of the program: the start piece, the functions in order, each behind its name, the
/// division routines, and nothing else; and the data.
pub fn assemblies_are_exact()
    ensures { AssembliesAreExact }
{}

/// The assembly of a program has the start piece, the items of each function, the division routines and the data.
pub fn assemblies_have_programs()
    ensures { AssembliesHavePrograms }
{}

/// Each function of the program has a faithful allocation, and a frame that fits its room.
pub fn programs_are_allocated()
    ensures { ProgramsAreAllocated }
{}
