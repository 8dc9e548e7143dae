//! The passes from a unit to its code over temporaries, each of which keeps what it is given where that is wanted.

ghost use Rattle.std.specs.Prelude.{◌^◌, ◌≤◌, All, IfOk};
ghost use Rattle.c_typed_tree.specs.Weight.{unit_weight};
ghost use Rattle.c_typing_weight.specs.Limits.{most_weight};
ghost use Rattle.suifvm_ir.specs.Programs.{VmFunction, program_size};
ghost use Rattle.compiler.specs.model.Parts.{IsKept, IsCleanCode, AreCodePartsOf};
ghost use Rattle.compiler.specs.model.Stages.{IsRewrittenUnit, IsLoweredUnit, IsSelectedProgram};

use crate::built::{CodeParts, PassParts, WantedParts};
use crate::laws::{kept_code_does_as_unit, rewritten_code_does_as_unit};
use alpha_select::{select, select_in_turn};
use block_passes::clean_and_split;
use c_rewrite::rewrite_unit;
use c_typed_tree::c_lawful_unit::LawfulUnit;
use c_typed_tree::copy_unit;
use flow_clean::laws::{cleaning_keeps_code, code_is_kept_along, copies_keep_code};
use flow_clean::{clean, clean_in_turn, without_copies};
use lowering::{lower, lower_in_turn};
use lowering_theorem::laws::programs_keep_meaning;
use std::alloc::{AllocError, Global};
use suifvm_ir::program::VmProgram;
use temp_ir::program::TempProgram;

/// A unit as the three rules rewrite it. Where everything is wanted, it is a copy of the unit that is rewritten.
fn rewrite(
    alloc: Global,
    typed: LawfulUnit,
    wanted: WantedParts,
) -> Result<PassParts<LawfulUnit, LawfulUnit>, AllocError>
    ensures kept { IfOk result (λ p. IsKept wanted typed p.given) }
    ensures made { IfOk result (λ p. IsRewrittenUnit typed.unit p.made.unit) }
{
    match wanted {
        WantedParts::Everything => {
            let unit = copy_unit(alloc, &typed.unit)?;
            let made = rewrite_lawful(alloc, LawfulUnit { unit })?;
            Ok(PassParts {
                given: Some(typed),
                made,
            })
        }
        WantedParts::Image => {
            let made = rewrite_lawful(alloc, typed)?;
            Ok(PassParts { given: None, made })
        }
    }
}

/// A unit that is rewritten in its place.
fn rewrite_lawful(alloc: Global, typed: LawfulUnit) -> Result<LawfulUnit, AllocError>
    ensures { IfOk result (λ made. IsRewrittenUnit typed.unit made.unit) }
{
    let LawfulUnit { unit } = typed;
    let unit = rewrite_unit(alloc, unit)?;
    Ok(LawfulUnit { unit })
}

/// The code of a unit over virtual registers. Where the image alone is wanted, each function of the unit is let go as
/// soon as it is lowered.
fn lower_unit(
    alloc: Global,
    typed: LawfulUnit,
    wanted: WantedParts,
) -> Result<PassParts<LawfulUnit, VmProgram>, AllocError>
    requires { unit_weight typed.unit ≤ most_weight }
    ensures kept { IfOk result (λ p. IsKept wanted typed p.given) }
    ensures made { IfOk result (λ p. IsLoweredUnit typed.unit p.made) }
{
    programs_keep_meaning();
    match wanted {
        WantedParts::Everything => {
            let vm = lower(alloc, &typed)?;
            Ok(PassParts {
                given: Some(typed),
                made: vm,
            })
        }
        WantedParts::Image => {
            let vm = lower_in_turn(alloc, typed)?;
            Ok(PassParts {
                given: None,
                made: vm,
            })
        }
    }
}

/// The clean program of one over virtual registers, beside the one whose instructions read no copies. Where the image
/// alone is wanted, each function of that one is let go as soon as it is clean.
fn clean_code(
    alloc: Global,
    lowered: VmProgram,
    wanted: WantedParts,
) -> Result<PassParts<VmProgram, VmProgram>, AllocError>
    requires { program_size lowered.functions ≤ 2 ^ 24 }
    ensures { IfOk result (λ p. IsCleanCode lowered wanted p.given p.made) }
{
    copies_keep_code();
    cleaning_keeps_code();
    code_is_kept_along();
    let copied = without_copies(alloc, lowered)?;
    match wanted {
        WantedParts::Everything => {
            let vm = clean(alloc, &copied)?;
            Ok(PassParts {
                given: Some(copied),
                made: vm,
            })
        }
        WantedParts::Image => {
            let vm = clean_in_turn(alloc, copied)?;
            Ok(PassParts {
                given: None,
                made: vm,
            })
        }
    }
}

/// The code over temporaries that is selected for code over virtual registers. Where the image alone is wanted, each
/// function is let go as soon as instructions are selected for it.
fn select_code(
    alloc: Global,
    vm: VmProgram,
    wanted: WantedParts,
) -> Result<PassParts<VmProgram, TempProgram>, AllocError>
    requires size { program_size vm.functions ≤ 2 ^ 24 }
    requires registers { All (λ (f : VmFunction). f.temps ≤ 2 ^ 24) vm.functions }
    ensures kept { IfOk result (λ p. IsKept wanted vm p.given) }
    ensures made { IfOk result (λ p. IsSelectedProgram vm p.made) }
{
    match wanted {
        WantedParts::Everything => {
            let selected = select(alloc, &vm)?;
            Ok(PassParts {
                given: Some(vm),
                made: selected,
            })
        }
        WantedParts::Image => {
            let selected = select_in_turn(alloc, vm)?;
            Ok(PassParts {
                given: None,
                made: selected,
            })
        }
    }
}

/// The code of a unit over temporaries, whose functions have no block to which no path leads and no critical edge.
pub(crate) fn code_of(
    alloc: Global,
    typed: LawfulUnit,
    wanted: WantedParts,
) -> Result<CodeParts, AllocError>
    requires { unit_weight typed.unit ≤ most_weight }
    ensures { IfOk result (AreCodePartsOf typed wanted) }
{
    let PassParts {
        given: typed,
        made: rewritten,
    } = rewrite(alloc, typed, wanted)?;
    let PassParts {
        given: rewritten,
        made: lowered,
    } = lower_unit(alloc, rewritten, wanted)?;
    rewritten_code_does_as_unit();
    let PassParts {
        given: copied,
        made: vm,
    } = clean_code(alloc, lowered, wanted)?;
    kept_code_does_as_unit();
    let PassParts {
        given: vm,
        made: selected,
    } = select_code(alloc, vm, wanted)?;
    let temps = clean_and_split(alloc, selected)?;
    Ok(CodeParts {
        typed,
        rewritten,
        copied,
        vm,
        temps,
    })
}
