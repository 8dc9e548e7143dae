//! Laws of the meaning of every unit, each the contract of a function that does nothing.

ghost use Rattle.c_typed_tree.specs.Expressions.{Expr};
ghost use Rattle.c_typed_tree.specs.Statements.{Stmt};
ghost use Rattle.c_semantics.specs.Laws.{EndingsStay, OutputsGrow, UnitPeaksRise, UnitHasOneEnding, TurnsAreOne};
ghost use Rattle.c_semantics.specs.Refines.{ExprRefines, ExprWithin, StmtRefines, StmtWithin, UnitsRefine};

/// An ending stays with more turns, so a run has one at most.
pub fn endings_stay()
    ensures more { EndingsStay }
    ensures one { UnitHasOneEnding }
    ensures turns { TurnsAreOne }
{}

/// What is written within some turns is a front of what is written within more.
pub fn outputs_grow()
    ensures { OutputsGrow }
{}

/// The greatest sum of rooms only rises with more turns.
pub fn peaks_rise()
    ensures { UnitPeaksRise }
{}

/// Every tree refines itself, and what refines a refinement of a tree refines that tree.
pub fn refinement_is_an_order()
    ensures expressions_themselves { (x : Expr) → ExprRefines x x }
    ensures expressions_on { (x y z : Expr) → ExprRefines x y → ExprRefines y z → ExprRefines x z }
    ensures statements_themselves { (s : Stmt) → StmtRefines s s }
    ensures statements_on { (s t u : Stmt) → StmtRefines s t → StmtRefines t u → StmtRefines s u }
{}

/// A refinement in the place of a part refines the whole expression and the whole statement, and refined functions
/// refine a well typed unit.
pub fn refinements_go_through()
    ensures expressions { (x y : Expr) → ExprWithin x y → ExprRefines x y }
    ensures statements { (s t : Stmt) → StmtWithin s t → StmtRefines s t }
    ensures units { UnitsRefine }
{}
