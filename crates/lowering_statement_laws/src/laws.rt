//! Laws of the code of statements, each the contract of a function that does nothing.

ghost use Rattle.lowering_statement_laws.specs.Laws.{StatementCodeIsLeft, StatementsMeet};

/// Behind the code of each statement stands the code that comes behind it.
pub fn code_is_left()
    ensures { StatementCodeIsLeft }
{}

/// The code of these forms of statement does what they do, where that of their parts does.
pub fn statements_meet()
    ensures { StatementsMeet }
{}
