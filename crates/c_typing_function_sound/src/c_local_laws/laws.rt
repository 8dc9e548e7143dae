//! Laws of the definitions of judged statements, each the contract of a function that does nothing.

ghost use Rattle.std.specs.Prelude.{List, Option, IfSome};
ghost use Rattle.c_tree.specs.declared.types.Declaration.{Declaration};
ghost use Rattle.c_tree.specs.declared.statements.Stmt.{Stmt};
ghost use Rattle.c_typing_judgements.specs.Types.{JudgementState};
ghost use Rattle.c_typing_statements.specs.declared.c_typing_function_bodies.functions.FunctionType.{FunctionType};
ghost use Rattle.c_typing_statements.specs.c_typing_function_bodies.Functions.{judge_function};
ghost use Rattle.c_typing_function_sound.specs.c_local_laws.Laws.{DeclaresItsLocals};

/// The parameters of a function that is judged are its first locals; its body declares none of them, and each other one
/// exactly once.
pub fn locals_are_declared_once()
    ensures { (d : Declaration) (of : Option FunctionType) (list : List Stmt) (s : JudgementState)
        → IfSome (judge_function d of list s).0 DeclaresItsLocals }
{}
