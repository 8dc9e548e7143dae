//! The laws of the parts of statements, each the contract of a function that does nothing.

ghost use Rattle.c_typing_function_sound.specs.c_statement_rule_laws.Laws.{ConditionIsTyped, SwitchIsTyped, ExpressionIsValue, ReturnIsTyped, EmptyReturnIsTyped, InitialiserIsTyped};

/// A condition, the operand of a `switch`, an expression whose value is not used, what is returned, and a local with
/// its initialiser are well typed as their statements ask, of operands that are.
pub fn parts_of_statements_are_typed()
    ensures conditions { ConditionIsTyped }
    ensures switches { SwitchIsTyped }
    ensures expressions { ExpressionIsValue }
    ensures returns { ReturnIsTyped }
    ensures empty { EmptyReturnIsTyped }
    ensures initialisers { InitialiserIsTyped }
{}
