//! Laws of values in registers, each the contract of a function that does nothing.

ghost use Rattle.lowering_states.specs.lowering_values.Laws.{TypesStand, ConversionsCorrespond, OperatorsCorrespond, MemoriesCorrespond};

/// Each integer type of C stands in the register of its promotion, and is loaded and stored as itself; its words are
/// words of the promotion too. A word is converted to that of another type by no instruction, where it is that word
/// already, or by the one of the code. The instruction of an operator does what the operator does, where that is
/// defined.
pub fn integers_correspond()
    ensures types { TypesStand }
    ensures conversions { ConversionsCorrespond }
    ensures operators { OperatorsCorrespond }
{}

/// In a memory that stands for that of the C meaning a value is tested as there, and a load or a store at a pointer
/// that is still to be moved does what one at the moved pointer does there.
pub fn memories_correspond()
    ensures { MemoriesCorrespond }
{}
