//! Expressions, and what stands round them in statements, rewritten by the three rules.

ghost use Rattle.std.specs.Prelude.{◌≡◌, IfOk, map, option_map};
ghost use Rattle.c_typed_tree.specs.View.{expr_view, local_view, first_view};
ghost use Rattle.c_rewrite.specs.Rewritten.{rewritten, with_init, with_first};

use bk_containers::{Box, Seq};
use c_rewrite_rules::{DeadArm, FoldConst, Node, Simplify, leaf};
use c_typed_tree::units::Local;
use c_typed_tree::{TExpr, TFirst, TLocal};
use pass_trees::bottom_up;
use std::alloc::{AllocError, Global};
use std::mem::replace;

/// An expression in a function with these locals, rewritten by the three rules one after the other.
pub(crate) fn rewrite_expression(
    alloc: Global,
    e: TExpr,
    locals: &[Local],
) -> Result<TExpr, AllocError>
    ensures { IfOk result (λ made. expr_view made ≡ rewritten locals.now (expr_view e)) }
{
    let folded = bottom_up(alloc, &FoldConst, Node(e))?;
    let simplified = bottom_up(alloc, &Simplify { locals }, folded)?;
    let Node(made) = bottom_up(alloc, &DeadArm, simplified)?;
    Ok(made)
}

/// The same in its box.
pub(crate) fn rewrite_in_box(
    alloc: Global,
    mut e: Box<TExpr>,
    locals: &[Local],
) -> Result<Box<TExpr>, AllocError>
    ensures { IfOk result (λ made. expr_view made ≡ rewritten locals.now (expr_view e)) }
{
    let whole = Box::replace(&mut e, leaf());
    let made = rewrite_expression(alloc, whole, locals)?;
    let _leaf = Box::replace(&mut e, made);
    Ok(e)
}

/// The same, where there is one.
pub(crate) fn rewrite_optional(
    alloc: Global,
    e: Option<Box<TExpr>>,
    locals: &[Local],
) -> Result<Option<Box<TExpr>>, AllocError>
    ensures { IfOk result (λ made. option_map expr_view made
        ≡ option_map (rewritten locals.now) (option_map expr_view e)) }
{
    match e {
        None => Ok(None),
        Some(e) => Ok(Some(rewrite_in_box(alloc, e, locals)?)),
    }
}

/// The declaration of a local.
#[tactic(auto, unfolding(c_rewrite_rules::proofs::Exchanges::opens))]
pub(crate) fn rewrite_local(
    alloc: Global,
    local: TLocal,
    locals: &[Local],
) -> Result<TLocal, AllocError>
    ensures { IfOk result (λ made. local_view made ≡ with_init (rewritten locals.now) (local_view local)) }
{
    let TLocal { number, init } = local;
    let init = rewrite_optional(alloc, init, locals)?;
    Ok(TLocal { number, init })
}

fn rewrite_locals(
    alloc: Global,
    list: Seq<TLocal>,
    locals: &[Local],
) -> Result<Seq<TLocal>, AllocError>
    ensures { IfOk result (λ made. map local_view made
        ≡ map (with_init (rewritten locals.now)) (map local_view list)) }
{
    let mut items = Seq::into_vec(list);
    for i in 0..items.len() {
        let slot = &mut items[i];
        let local = replace(
            slot,
            TLocal {
                number: 0,
                init: None,
            },
        );
        let made = rewrite_local(alloc, local, locals)?;
        let slot = &mut items[i];
        let _empty = replace(slot, made);
    }
    Ok(Seq::from_vec(items))
}

/// The first part of a `for`.
#[tactic(auto, unfolding(c_rewrite_rules::proofs::Exchanges::opens))]
fn rewrite_first(alloc: Global, first: TFirst, locals: &[Local]) -> Result<TFirst, AllocError>
    ensures { IfOk result (λ made. first_view made ≡ with_first (rewritten locals.now) (first_view first)) }
{
    match first {
        TFirst::Nothing => Ok(TFirst::Nothing),
        TFirst::Value(e) => Ok(TFirst::Value(rewrite_in_box(alloc, e, locals)?)),
        TFirst::Locals(list) => Ok(TFirst::Locals(rewrite_locals(alloc, list, locals)?)),
    }
}

/// The same in its box.
pub(crate) fn rewrite_first_in_box(
    alloc: Global,
    mut first: Box<TFirst>,
    locals: &[Local],
) -> Result<Box<TFirst>, AllocError>
    ensures { IfOk result (λ made. first_view made ≡ with_first (rewritten locals.now) (first_view first)) }
{
    let whole = Box::replace(&mut first, TFirst::Nothing);
    let made = rewrite_first(alloc, whole, locals)?;
    let _nothing = Box::replace(&mut first, made);
    Ok(first)
}
