//! The typed unit of a text.

ghost use Rattle.std.specs.Prelude.{◌≡◌, ◌≤◌, length, IfOk, IfErr, IsErrOf, OnOk};
ghost use Rattle.c_lexer.specs.Limits.{text_limit};
ghost use Rattle.c_typed_tree.specs.Weight.{unit_weight};
ghost use Rattle.c_typed_tree.specs.Rooms.{data_size};
ghost use Rattle.c_typing_weight.specs.Limits.{most_weight};
ghost use Rattle.compiler_front_end.specs.Heights.{IsWithinHeight};
ghost use Rattle.compiler_front_end.specs.Units.{IsUnitOf, IsUnitWithin, HasNoUnit};
ghost use Rattle.compiler_front_end.specs.model.Causes.{IsBeyond};

use crate::fault::CompileFault;
use c_parser::parse;
use c_tree::TranslationUnit;
use c_typed_tree::TypedUnit;
use c_typed_tree::c_lawful_unit::LawfulUnit;
use c_types::check;
use c_typing_text_laws::c_text_bytes::read_text;
use c_typing_weight::{MOST_WEIGHT, data_size, weight};
use call_outcomes::outcome::Which;
use mem_objects::MOST_DATA;
use std::alloc::Global;

/// The tree of a text, and its typed unit, which is lawful.
#[derive(Drop)]
pub struct FrontEnd {
    pub unit: TranslationUnit,
    pub typed: LawfulUnit,
}

/// The tree of a text, and its typed unit, whatever it weighs.
#[tactic(auto, using(crate::proofs::Units::no_tree, crate::proofs::Units::no_unit, crate::proofs::Spellings::lawful, crate::proofs::Heights::has_height))]
fn any_unit(alloc: Global, text: &[u8]) -> Result<FrontEnd, CompileFault>
    requires { length text.now ≤ text_limit }
    ensures unit { IfOk result (λ made. IsUnitOf text.now made.unit made.typed.unit) }
    ensures height { IfOk result (λ made. IsWithinHeight made.unit made.typed.unit) }
    ensures fault { IfErr result (HasNoUnit text.now) }
{
    let unit = parse(alloc, text)?;
    let typed = check(alloc, &unit)?;
    read_text(text);
    Ok(FrontEnd {
        unit,
        typed: LawfulUnit { unit: typed },
    })
}

/// Whether a unit is within the limits of weight and of data.
#[tactic(auto, using(crate::proofs::Units::within, crate::proofs::Units::above))]
fn within_limits(unit: &TypedUnit) -> Result<(), CompileFault>
    ensures light { OnOk result (unit_weight unit.now ≤ most_weight) }
    ensures small { OnOk result (data_size unit.now ≤ MOST_DATA) }
    ensures beyond { IfErr result (IsBeyond unit.now) }
{
    let counted = weight(unit);
    if counted > MOST_WEIGHT {
        return Err(CompileFault::Limit {
            which: Which::Weight,
            counted,
        });
    }
    let counted = data_size(unit);
    if counted > MOST_DATA {
        return Err(CompileFault::Limit {
            which: Which::Data,
            counted,
        });
    }
    Ok(())
}

/// The tree of a text of at most 4,194,304 bytes, and its typed unit, which is lawful and within the limits. The tree
/// is at most 2,048 nodes high, and the typed unit at most three times as high as the tree.
///
/// # Errors
///
/// In this order: [`SourceFault::Lex`](call_outcomes::outcome::SourceFault) where no token begins at an offset; the
/// limit of its nesting; `Syntax` where the tokens have no reading; `Typing` where the unit has faults, with the
/// first; the limit of its weight; the limit of its data; and [`CompileFault::NoMemory`], also for a tree that is too
/// high.
#[tactic(auto, using(crate::proofs::Units::beyond))]
pub fn read_unit(alloc: Global, text: &[u8]) -> Result<FrontEnd, CompileFault>
    requires { length text.now ≤ text_limit }
    ensures unit { IfOk result (λ made. IsUnitWithin text.now made.unit made.typed.unit) }
    ensures height { IfOk result (λ made. IsWithinHeight made.unit made.typed.unit) }
    ensures fault { IfErr result (HasNoUnit text.now) }
{
    let made = any_unit(alloc, text)?;
    within_limits(&made.typed.unit)?;
    Ok(made)
}
