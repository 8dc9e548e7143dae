//! The laws of the code of functions, each the contract of a function that does nothing.

ghost use Rattle.lowering_bounds.specs.Laws.{OfFunctions, LoweredNamesAreThere, FunctionHasFewRegisters, GivesFewArguments, CostsLittle, FunctionIsSmall};

/// The code of a well typed function of weight w names objects, bytes and functions that are there. It has at most
/// `7 * w` registers, no call with more than w arguments, a cost of at most `2048 * (w + 1)`, and a size of at most a
/// 24th of that.
pub fn code_is_within_weight()
    ensures names { OfFunctions LoweredNamesAreThere }
    ensures registers { OfFunctions FunctionHasFewRegisters }
    ensures arguments { OfFunctions GivesFewArguments }
    ensures cost { OfFunctions CostsLittle }
    ensures size { OfFunctions FunctionIsSmall }
{}
