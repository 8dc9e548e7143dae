//! Whether a tree is at most so high.
//!
//! Each form has a function for itself and one for what stands under it, as in the text of a tree.
//! The bound falls by one with each node, and at 0 nothing goes further down.
#![tactic(auto, using(crate::proofs::Rows::rows, crate::proofs::Heights::heights), unfolding(crate::specs::model::Open::opens))]

ghost use Rattle.std.specs.Prelude.{◌≤◌, ◌↔◌, IsTrue};
ghost use Rattle.c_tree.specs.Nodes.{node_height, nodes_height, expr_node, type_node, nodes_of, two_nodes, append_nodes, optional, local_node, first_nodes, part_of_for, label_nodes, stmt_node, init_node, optional_init, end_nodes, external_node, unit_height};
ghost use Rattle.c_tree.specs.model.Parts.{children_of, constant_node, member_node, parameter_node, section_node, else_nodes};

use crate::{
    Constant, Declaration, Expr, External, ForFirst, FunctionEnd, Init, Label, LocalDeclarator,
    Parameter, Section, Stmt, TranslationUnit, TypeNode,
};
use bk_containers::Box;

/// Whether an expression is at most so high.
#[cycle(ast)]
fn is_expr_within(e: &Expr, most: u32) -> bool
    ensures { IsTrue result ↔ (node_height (expr_node e.now) ≤ most) }
{
    match most.checked_sub(1) {
        Some(below) => are_operands_within(e, below),
        None => false,
    }
}

/// Whether what stands under an expression is at most so high.
#[cycle(ast)]
fn are_operands_within(e: &Expr, most: u32) -> bool
    ensures { IsTrue result ↔ (nodes_height (children_of (expr_node e.now)) ≤ most) }
{
    match e {
        Expr::Call { arguments, .. } => are_exprs_within(arguments.as_slice(), most),
        Expr::Comma { operands, .. } => are_exprs_within(operands.as_slice(), most),
        Expr::Unary { operand, .. } => is_expr_within(operand, most),
        Expr::SizeOfValue { operand, .. } => is_expr_within(operand, most),
        Expr::Field { operand, .. } => is_expr_within(operand, most),
        Expr::Arrow { operand, .. } => is_expr_within(operand, most),
        Expr::Postfix { operand, .. } => is_expr_within(operand, most),
        Expr::Binary { left, right, .. } => {
            is_expr_within(left, most) && is_expr_within(right, most)
        }
        Expr::Assign { left, right, .. } => {
            is_expr_within(left, most) && is_expr_within(right, most)
        }
        Expr::Index { left, right, .. } => {
            is_expr_within(left, most) && is_expr_within(right, most)
        }
        Expr::Conditional {
            condition,
            holds,
            fails,
            ..
        } => {
            is_expr_within(condition, most)
                && is_expr_within(holds, most)
                && is_expr_within(fails, most)
        }
        Expr::Cast { to, operand, .. } => {
            is_type_within(&to.ty, most) && is_expr_within(operand, most)
        }
        Expr::SizeOfType { operand, .. } => is_type_within(&operand.ty, most),
        _ => true,
    }
}

/// Whether expressions are at most so high.
#[cycle(ast)]
fn are_exprs_within(list: &[Expr], most: u32) -> bool
    ensures { IsTrue result ↔ (nodes_height (nodes_of expr_node list.now) ≤ most) }
{
    for e in list {
        if !is_expr_within(e, most) {
            return false;
        }
    }
    true
}

/// Whether an expression that may be missing is at most so high.
#[cycle(ast)]
fn is_value_within(value: &Option<Expr>, most: u32) -> bool
    ensures { IsTrue result ↔ (nodes_height (optional value.now) ≤ most) }
{
    match value {
        Some(e) => is_expr_within(e, most),
        None => true,
    }
}

/// Whether a type is at most so high.
#[cycle(ast)]
fn is_type_within(ty: &TypeNode, most: u32) -> bool
    ensures { IsTrue result ↔ (node_height (type_node ty.now) ≤ most) }
{
    match most.checked_sub(1) {
        Some(below) => are_type_parts_within(ty, below),
        None => false,
    }
}

/// Whether what stands under a type is at most so high.
#[cycle(ast)]
fn are_type_parts_within(ty: &TypeNode, most: u32) -> bool
    ensures { IsTrue result ↔ (nodes_height (children_of (type_node ty.now)) ≤ most) }
{
    match ty {
        TypeNode::Basic(_) => true,
        TypeNode::Named(_) => true,
        TypeNode::Enum { constants, .. } => match constants {
            Some(constants) => are_constants_within(constants.as_slice(), most),
            None => true,
        },
        TypeNode::Struct { members, .. } => match members {
            Some(members) => are_members_within(members.as_slice(), most),
            None => true,
        },
        TypeNode::Pointer(target) => is_type_within(target, most),
        TypeNode::Array { element, length } => match length {
            Some(length) => is_type_within(element, most) && is_expr_within(length, most),
            None => is_type_within(element, most),
        },
        TypeNode::Takes {
            result: returned,
            parameters,
        } => {
            is_type_within(returned, most) && are_parameters_within(parameters.as_slice(), most)
        }
    }
}

/// Whether an enumeration constant is at most so high.
#[cycle(ast)]
fn is_constant_within(constant: &Constant, most: u32) -> bool
    ensures { IsTrue result ↔ (node_height (constant_node constant.now) ≤ most) }
{
    match most.checked_sub(1) {
        Some(below) => is_value_within(&constant.value, below),
        None => false,
    }
}

/// Whether enumeration constants are at most so high.
#[cycle(ast)]
fn are_constants_within(list: &[Constant], most: u32) -> bool
    ensures { IsTrue result ↔ (nodes_height (nodes_of constant_node list.now) ≤ most) }
{
    for constant in list {
        if !is_constant_within(constant, most) {
            return false;
        }
    }
    true
}

/// Whether a member is at most so high.
#[cycle(ast)]
fn is_member_within(member: &Declaration, most: u32) -> bool
    ensures { IsTrue result ↔ (node_height (member_node member.now) ≤ most) }
{
    match most.checked_sub(1) {
        Some(below) => is_type_within(&member.ty, below),
        None => false,
    }
}

/// Whether members are at most so high.
#[cycle(ast)]
fn are_members_within(list: &[Declaration], most: u32) -> bool
    ensures { IsTrue result ↔ (nodes_height (nodes_of member_node list.now) ≤ most) }
{
    for member in list {
        if !is_member_within(member, most) {
            return false;
        }
    }
    true
}

/// Whether a parameter is at most so high.
#[cycle(ast)]
fn is_parameter_within(parameter: &Parameter, most: u32) -> bool
    ensures { IsTrue result ↔ (node_height (parameter_node parameter.now) ≤ most) }
{
    match most.checked_sub(1) {
        Some(below) => is_type_within(&parameter.ty, below),
        None => false,
    }
}

/// Whether parameters are at most so high.
#[cycle(ast)]
fn are_parameters_within(list: &[Parameter], most: u32) -> bool
    ensures { IsTrue result ↔ (nodes_height (nodes_of parameter_node list.now) ≤ most) }
{
    for parameter in list {
        if !is_parameter_within(parameter, most) {
            return false;
        }
    }
    true
}

/// Whether a declaration in a block is at most so high.
fn is_local_within(local: &LocalDeclarator, most: u32) -> bool
    ensures { IsTrue result ↔ (node_height (local_node local.now) ≤ most) }
{
    match most.checked_sub(1) {
        Some(below) => are_local_parts_within(local, below),
        None => false,
    }
}

/// Whether the type and the initialiser of a declaration in a block are at most so high.
fn are_local_parts_within(local: &LocalDeclarator, most: u32) -> bool
    ensures { IsTrue result ↔ (nodes_height (children_of (local_node local.now)) ≤ most) }
{
    is_type_within(&local.declaration.ty, most) && is_boxed_value_within(&local.init, most)
}

/// Whether declarations in a block are at most so high.
fn are_locals_within(list: &[LocalDeclarator], most: u32) -> bool
    ensures { IsTrue result ↔ (nodes_height (nodes_of local_node list.now) ≤ most) }
{
    for local in list {
        if !is_local_within(local, most) {
            return false;
        }
    }
    true
}

/// Whether an expression in a box that may be missing is at most so high.
fn is_boxed_value_within(value: &Option<Box<Expr>>, most: u32) -> bool
    ensures { IsTrue result ↔ (nodes_height (optional value.now) ≤ most) }
{
    match value {
        Some(e) => is_expr_within(e, most),
        None => true,
    }
}

/// Whether the first part of a `for` is at most so high.
fn is_first_within(first: &ForFirst, most: u32) -> bool
    ensures { IsTrue result ↔ (nodes_height (first_nodes first.now) ≤ most) }
{
    match first {
        ForFirst::Nothing => most > 0,
        ForFirst::Value(e) => is_expr_within(e, most),
        ForFirst::Locals(list) => are_locals_within(list.as_slice(), most),
    }
}

/// Whether the condition or the step of a `for` is at most so high.
fn is_part_of_for_within(part: &Option<Box<Expr>>, most: u32) -> bool
    ensures { IsTrue result ↔ (node_height (part_of_for part.now) ≤ most) }
{
    match part {
        Some(e) => is_expr_within(e, most),
        None => most > 0,
    }
}

/// Whether the parts of a `for` before its body are at most so high.
fn is_head_within(
    first: &ForFirst,
    condition: &Option<Box<Expr>>,
    step: &Option<Box<Expr>>,
    most: u32,
) -> bool
    ensures { IsTrue result ↔ (nodes_height (append_nodes (first_nodes first.now)
        (two_nodes (part_of_for condition.now) (part_of_for step.now))) ≤ most) }
{
    is_first_within(first, most)
        && is_part_of_for_within(condition, most)
        && is_part_of_for_within(step, most)
}

/// Whether a statement is at most so high.
#[cycle(statement)]
fn is_stmt_within(stmt: &Stmt, most: u32) -> bool
    ensures { IsTrue result ↔ (node_height (stmt_node stmt.now) ≤ most) }
{
    match most.checked_sub(1) {
        Some(below) => are_parts_within(stmt, below),
        None => false,
    }
}

/// Whether what stands under a statement is at most so high.
#[cycle(statement)]
fn are_parts_within(stmt: &Stmt, most: u32) -> bool
    ensures { IsTrue result ↔ (nodes_height (children_of (stmt_node stmt.now)) ≤ most) }
{
    match stmt {
        Stmt::Block(list) => are_stmts_within(list.as_slice(), most),
        Stmt::If {
            condition,
            then,
            otherwise,
        } => {
            is_expr_within(condition, most)
                && is_stmt_within(then, most)
                && is_otherwise_within(otherwise, most)
        }
        Stmt::While { condition, body } => {
            is_expr_within(condition, most) && is_stmt_within(body, most)
        }
        Stmt::Do { body, condition } => {
            is_stmt_within(body, most) && is_expr_within(condition, most)
        }
        Stmt::For {
            first,
            condition,
            step,
            body,
        } => { is_head_within(first, condition, step, most) && is_stmt_within(body, most) }
        Stmt::Switch { operand, sections } => {
            is_expr_within(operand, most) && are_sections_within(sections.as_slice(), most)
        }
        Stmt::Break { .. } => true,
        Stmt::Continue { .. } => true,
        Stmt::Return { value, .. } => is_boxed_value_within(value, most),
        Stmt::Expression(e) => is_expr_within(e, most),
        Stmt::Empty => true,
        Stmt::Local(local) => are_local_parts_within(local, most),
    }
}

/// Whether the statement behind `else`, if there is one, is at most so high.
#[cycle(statement)]
fn is_otherwise_within(otherwise: &Option<Box<Stmt>>, most: u32) -> bool
    ensures { IsTrue result ↔ (nodes_height (else_nodes otherwise.now) ≤ most) }
{
    match otherwise {
        Some(stmt) => is_stmt_within(stmt, most),
        None => true,
    }
}

/// Whether statements are at most so high.
#[cycle(statement)]
fn are_stmts_within(list: &[Stmt], most: u32) -> bool
    ensures { IsTrue result ↔ (nodes_height (nodes_of stmt_node list.now) ≤ most) }
{
    for stmt in list {
        if !is_stmt_within(stmt, most) {
            return false;
        }
    }
    true
}

/// Whether the value of a label is at most so high.
fn is_label_within(label: &Label, most: u32) -> bool
    ensures { IsTrue result ↔ (nodes_height (label_nodes label.now) ≤ most) }
{
    match label {
        Label::Case { value, .. } => is_expr_within(value, most),
        Label::Default { .. } => true,
    }
}

/// Whether a label of a `switch` with its statements is at most so high.
#[cycle(statement)]
fn is_section_within(section: &Section, most: u32) -> bool
    ensures { IsTrue result ↔ (node_height (section_node section.now) ≤ most) }
{
    match most.checked_sub(1) {
        Some(below) => {
            is_label_within(&section.label, below)
                && are_stmts_within(section.statements.as_slice(), below)
        }
        None => false,
    }
}

/// Whether the labels of a `switch` with their statements are at most so high.
#[cycle(statement)]
fn are_sections_within(list: &[Section], most: u32) -> bool
    ensures { IsTrue result ↔ (nodes_height (nodes_of section_node list.now) ≤ most) }
{
    for section in list {
        if !is_section_within(section, most) {
            return false;
        }
    }
    true
}

/// Whether an initialiser is at most so high.
#[cycle(init)]
fn is_init_within(init: &Init, most: u32) -> bool
    ensures { IsTrue result ↔ (node_height (init_node init.now) ≤ most) }
{
    match init {
        Init::Value(e) => is_expr_within(e, most),
        Init::List { items, .. } => match most.checked_sub(1) {
            Some(below) => are_inits_within(items.as_slice(), below),
            None => false,
        },
    }
}

/// Whether initialisers are at most so high.
#[cycle(init)]
fn are_inits_within(list: &[Init], most: u32) -> bool
    ensures { IsTrue result ↔ (nodes_height (nodes_of init_node list.now) ≤ most) }
{
    for init in list {
        if !is_init_within(init, most) {
            return false;
        }
    }
    true
}

/// Whether an initialiser that may be missing is at most so high.
fn is_optional_init_within(init: &Option<Init>, most: u32) -> bool
    ensures { IsTrue result ↔ (nodes_height (optional_init init.now) ≤ most) }
{
    match init {
        Some(init) => is_init_within(init, most),
        None => true,
    }
}

/// Whether what follows the declarator of a function is at most so high.
fn is_end_within(end: &FunctionEnd, most: u32) -> bool
    ensures { IsTrue result ↔ (nodes_height (end_nodes end.now) ≤ most) }
{
    match end {
        FunctionEnd::Nothing => true,
        FunctionEnd::Init(init) => is_init_within(init, most),
        FunctionEnd::Body(list) => match most.checked_sub(1) {
            Some(below) => are_stmts_within(list.as_slice(), below),
            None => false,
        },
    }
}

/// Whether what stands at file scope is at most so high.
fn is_external_within(external: &External, most: u32) -> bool
    ensures { IsTrue result ↔ (node_height (external_node external.now) ≤ most) }
{
    match most.checked_sub(1) {
        Some(below) => are_external_parts_within(external, below),
        None => false,
    }
}

/// Whether what stands under an external is at most so high.
fn are_external_parts_within(external: &External, most: u32) -> bool
    ensures { IsTrue result ↔ (nodes_height (children_of (external_node external.now)) ≤ most) }
{
    match external {
        External::Typedef(declaration) => is_type_within(&declaration.ty, most),
        External::Object {
            declaration,
            init,
            ..
        } => is_type_within(&declaration.ty, most) && is_optional_init_within(init, most),
        External::Function {
            declaration,
            end,
            ..
        } => is_type_within(&declaration.ty, most) && is_end_within(end, most),
        External::Tags { ty, .. } => is_type_within(ty, most),
    }
}

/// Whether the tree of a unit is at most so high: its height is the greatest number of nodes, one under
/// the other, that its printed text has. The time grows with the number of nodes, and the calls go no
/// deeper than two for each node that stands above another, up to `most` nodes.
pub fn is_within_height(unit: &TranslationUnit, most: u32) -> bool
    ensures { IsTrue result ↔ (unit_height unit.now ≤ most) }
{
    for external in unit.externals.as_slice() {
        if !is_external_within(external, most) {
            return false;
        }
    }
    true
}
