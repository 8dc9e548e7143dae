//! Laws, each the contract of a function that does nothing.

ghost use Rattle.frame_memory.specs.flat_operations.Laws.{OperationsCorrespond, ExtensionsCorrespond, FlatMovesCorrespond, FlatLoadsCorrespond, FlatStoresCorrespond, FlatTestsCorrespond, ContentsStay};
ghost use Rattle.frame_memory.specs.flat_operations.Steps.{LoadsStep, StoresStep};

/// What operations and moves give of contents, they give of the words that stand for them.
pub fn operations_correspond()
    ensures operations { OperationsCorrespond }
    ensures extensions { ExtensionsCorrespond }
    ensures moves { FlatMovesCorrespond }
    ensures tests { FlatTestsCorrespond }
    ensures stay { ContentsStay }
{}

/// What loads give and stores leave of objects, they give and leave of the bytes that stand for these.
pub fn accesses_correspond()
    ensures loads { FlatLoadsCorrespond }
    ensures stores { FlatStoresCorrespond }
{}

/// A load or a store that has a meaning over objects is one step of the machine, which is not stuck.
pub fn accesses_step()
    ensures loads { LoadsStep }
    ensures stores { StoresStep }
{}
