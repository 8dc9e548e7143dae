//! The code of a function is good, so it can be laid out: its jumps lead to what stands behind them, its loops are
//! closed, its registers are few, and it is no longer than its parts say.

ghost use Rattle.std.specs.Prelude.{◌≡◌, ◌≤◌, ◌+◌, ◌*◌, max, ℕ, List, length};
ghost use Rattle.c_typed_tree.specs.declared.types.StructDef.{StructDef};
ghost use Rattle.c_typed_tree.specs.declared.units.Local.{Local};
ghost use Rattle.c_typed_tree.specs.declared.units.TypedFn.{TypedFn};
ghost use Rattle.c_typed_tree.specs.View.{stmt_view};
ghost use Rattle.c_typed_tree.specs.Expressions.{Expr};
ghost use Rattle.c_typed_tree.specs.Statements.{Stmt};
ghost use Rattle.c_typed_tree.specs.Counts.{expr_nodes};
ghost use Rattle.lowering_code.specs.declared.item.CodeItem.{CodeItem};
ghost use Rattle.lowering_code.specs.Items.{block_total};
ghost use Rattle.lowering_code.specs.Expressions.{expr_code};
ghost use Rattle.lowering_code.specs.Statements.{stmt_code};
ghost use Rattle.lowering_code.specs.Functions.{items_of};
ghost use Rattle.lowering_expressions.specs.Levels.{register_levels};
ghost use Rattle.lowering_statements.specs.Levels.{stmt_levels};
ghost use Rattle.lowering_layout.specs.Good.{IsGood};
ghost use Rattle.lowering_functions.specs.Parts.{stmt_parts};

/// Of an expression, in front of good code, where registers are enough.
pub fn expressions_are_good()
    ensures good { (most locals depth loops : ℕ) (ds : List StructDef) (ls : List Local) (x : Expr)
        (rest : List CodeItem) → length ls ≡ locals → locals + 5 * (depth + register_levels x) ≤ most →
        IsGood most loops rest → IsGood most loops (expr_code locals ds ls depth x rest) }
    ensures size { (most locals depth : ℕ) (ds : List StructDef) (ls : List Local) (x : Expr) (rest : List CodeItem) →
        length ls ≡ locals → locals + 5 * (depth + register_levels x) ≤ most →
        length (expr_code locals ds ls depth x rest) ≤ 16 * expr_nodes x + length rest }
{}

/// Of a statement, in front of good code in which the blocks are to which its `break` and `continue` go.
pub fn statements_are_good()
    ensures good { (most locals brk con loops : ℕ) (ds : List StructDef) (ls : List Local) (s : Stmt)
        (rest : List CodeItem) → length ls ≡ locals → brk ≤ block_total rest → con ≤ block_total rest →
        locals + 5 * max 5 (stmt_levels s) ≤ most → IsGood most loops rest →
        IsGood most loops (stmt_code locals ds ls brk con s rest) }
    ensures size { (most locals brk con : ℕ) (ds : List StructDef) (ls : List Local) (s : Stmt) (rest : List CodeItem) →
        length ls ≡ locals → brk ≤ block_total rest → con ≤ block_total rest → locals + 5 * max 5 (stmt_levels s) ≤ most →
        length (stmt_code locals ds ls brk con s rest) ≤ 16 * stmt_parts s + length rest }
{}

/// Of a whole function.
pub fn functions_are_good()
    ensures good { (most : ℕ) (ds : List StructDef) (f : TypedFn) → f.params ≤ length f.locals →
        length f.locals + 5 * max 5 (stmt_levels (stmt_view f.body)) ≤ most → IsGood most 0 (items_of ds f) }
    ensures size { (most : ℕ) (ds : List StructDef) (f : TypedFn) → f.params ≤ length f.locals →
        length f.locals + 5 * max 5 (stmt_levels (stmt_view f.body)) ≤ most →
        length (items_of ds f) ≤ 2 * f.params + 16 * stmt_parts (stmt_view f.body) }
{}
