//! Laws of the code of expressions that hand on, test or drop what their operands give, each the contract of a function
//! that does nothing.

ghost use Rattle.lowering_expression_laws.specs.lowering_operand_laws.Laws.{OperandsMeet};

/// The code of commas, of `!`, and of conversions and casts to void and between pointers does what they do, where that
/// of their operands does.
pub fn operands_meet()
    ensures { OperandsMeet }
{}
