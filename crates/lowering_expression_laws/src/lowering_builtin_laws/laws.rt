//! Laws of the code of calls of built-in functions, each the contract of a function that does nothing.

ghost use Rattle.lowering_expression_laws.specs.lowering_builtin_laws.Laws.{BuiltinsMeet};

/// The code of calls of `getchar`, `putchar` and `abort` does what they do, with their turns.
pub fn builtins_meet()
    ensures { BuiltinsMeet }
{}
