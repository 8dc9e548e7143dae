//! The labels of a `switch`, whose value is compared with each.

ghost use Rattle.std.specs.Prelude.{◌≡◌, OnOk};
ghost use Rattle.c_typed_tree.specs.View.{type_view};
ghost use Rattle.lowering_code.specs.Statements.{name_if_default};
ghost use Rattle.lowering_expressions.specs.Scopes.{HasLevels};
ghost use Rattle.lowering_statements.specs.Scopes.{label_code, labels_code, default_name};

use c_typed_tree::{CType, TLabel};
use lowering_emitter::code::EmittedCode;
use lowering_emitter::registers::register_type;
use lowering_expressions::LoweringScope;
use std::alloc::AllocError;
use suifvm_ir::insn::{CompareOp, VmBranchOp, VmInsn};
use suifvm_ir::types::VmType;

/// A label with the name of its block.
#[derive(Clone, Copy, Debug, PartialEq, Eq)]
pub struct LabelTarget {
    pub label: TLabel,
    pub name: usize,
}

fn name_if_default(label: TLabel, name: usize, otherwise: usize) -> usize
    ensures { result ≡ name_if_default label name otherwise }
{
    match label {
        TLabel::Case(_) => otherwise,
        TLabel::Default => name,
    }
}

/// The name of the block where a `switch` goes that has no label of its value: that of its `default`, or another one.
pub fn default_name(otherwise: usize, targets: &[LabelTarget]) -> usize
    ensures { result ≡ default_name otherwise targets.now }
{
    let mut name = otherwise;
    let mut i = targets.len();
    while i > 0 {
        i -= 1;
        name = name_if_default(targets[i].label, targets[i].name, name);
    }
    name
}

/// The value at the lowest depth is compared with that of a label.
#[tactic(auto, unfolding(c_typed_tree::specs::model::View::opens))]
fn label(
    code: &mut EmittedCode,
    scope: &LoweringScope<'_>,
    ty: &CType,
    label: TLabel,
    name: usize,
) -> Result<(), AllocError>
    requires { HasLevels scope.now 0 5 }
    ensures { OnOk result (code.new ≡ label_code scope.now (type_view ty.now) label name code.old) }
{
    let r = scope.registers;
    match label {
        TLabel::Default => Ok(()),
        TLabel::Case(word) => {
            let int = CType::Int {
                bytes: 4,
                signed: true,
            };
            code.branch_by(VmBranchOp::IfTrue, r, 1, &int, name)?;
            code.plain(VmInsn::Compare {
                op: CompareOp::Equal,
                ty: register_type(ty),
                destination: r.temporary(1, VmType::S32),
                left: r.value(0, ty),
                right: r.value(1, ty),
            })?;
            code.constant(r, 1, ty, word)
        }
    }
}

/// The value at the lowest depth is compared with that of each label, in order. It fails only where memory is short.
pub fn labels(
    code: &mut EmittedCode,
    scope: &LoweringScope<'_>,
    ty: &CType,
    targets: &[LabelTarget],
) -> Result<(), AllocError>
    requires { HasLevels scope.now 0 5 }
    ensures { OnOk result (code.new ≡ labels_code scope.now (type_view ty.now) targets.now code.old) }
{
    let mut i = targets.len();
    while i > 0 {
        i -= 1;
        label(code, scope, ty, targets[i].label, targets[i].name)?;
    }
    Ok(())
}
