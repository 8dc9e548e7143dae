//! The program of `int main(void) { }`, whose call gives 0 where it comes to its end (C99 5.1.2.2.3).

ghost use Rattle.std.specs.Prelude.{◌≡◌, ◌≤◌, true, [], ◌∷◌, IfOk, codes};
ghost use Rattle.c_typed_tree.specs.Types.{Int};
ghost use Rattle.c_typed_tree.specs.Statements.{Block, no_stmts};
ghost use Rattle.c_typed_tree.specs.View.{type_view, stmt_view};
ghost use Rattle.c_typed_tree.specs.Weight.{unit_weight};
ghost use Rattle.c_typing_weight.specs.Limits.{most_weight};

use crate::lower;
use bk_containers::{Name, Seq};
use c_typed_tree::c_lawful_unit::LawfulUnit;
use c_typed_tree::{CType, TStmt, TypedFn, TypedUnit};
use std::alloc::{AllocError, Global};
use std::test::Fail;
use suifvm_ir::vm_text;

/// `int`.
#[tactic(auto, unfolding(c_typed_tree::specs::model::View::opens))]
fn int() -> CType
    ensures { type_view result ≡ Int 4 true }
{
    CType::Int {
        bytes: 4,
        signed: true,
    }
}

/// A block without statements.
fn body(alloc: Global) -> TStmt
    ensures { stmt_view result ≡ Block no_stmts }
{
    TStmt::Block(Seq::new(alloc))
}

fn main_function(alloc: Global) -> Result<TypedFn, AllocError>
    ensures name { IfOk result (λ f. f.name ≡ codes "main") }
    ensures result { IfOk result (λ f. type_view f.result ≡ Int 4 true) }
    ensures params { IfOk result (λ f. f.params ≡ 0) }
    ensures locals { IfOk result (λ f. f.locals ≡ []) }
    ensures body { IfOk result (λ f. stmt_view f.body ≡ Block no_stmts) }
{
    let name = Name::from_slice(alloc, b"main")?;
    Ok(TypedFn {
        name,
        result: int(),
        params: 0,
        locals: Seq::new(alloc),
        body: body(alloc),
    })
}

/// The functions of the unit.
fn one(alloc: Global, f: TypedFn) -> Result<Seq<TypedFn>, AllocError>
    ensures { IfOk result (λ list. list ≡ f ∷ []) }
{
    let mut list = Seq::new(alloc);
    list.push(f)?;
    Ok(list)
}

/// The unit.
fn unit(alloc: Global) -> Result<LawfulUnit, AllocError>
    ensures { IfOk result (λ made. unit_weight made.unit ≤ most_weight) }
{
    let f = main_function(alloc)?;
    let functions = one(alloc, f)?;
    let structs = Seq::new(alloc);
    let globals = Seq::new(alloc);
    Ok(LawfulUnit {
        unit: TypedUnit {
            structs,
            globals,
            functions,
        },
    })
}

#[test]
fn an_empty_main_gives_0(rt: HostRuntime) -> Result<(), Fail> {
    let alloc = rt.alloc();
    let unit = unit(alloc)?;
    let program = lower(alloc, &unit)?;
    let text = vm_text(alloc, &program)?;
    let wanted = b"func main\nB0:\n0 ldc.s32 v0, 0\n1 ret.s32 v0\n";
    assert!(rt; text.as_slice() == wanted.as_slice());
    assert_eq!(rt; program.globals.len(), 0);
    Ok(())
}
