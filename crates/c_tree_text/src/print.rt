//! The text of a tree: one line for each node, two blanks for each level.
//!
//! Each form has a function for its line and one for its children, which stand under an indentation
//! of two blanks more. The functions go down only where the tree does.
#![tactic(auto, using(c_tree::proofs::Rows::rows), unfolding(c_tree::specs::model::Open::opens))]

ghost use Rattle.std.specs.Prelude.{◌≡◌, ◌++◌, [], ◌∷◌, IfOk, OnOk};
ghost use Rattle.c_tree.specs.Words as words;
ghost use Rattle.c_tree.specs.Nodes.{expr_node, type_node, nodes_of, nodes_text, node_text, optional};
ghost use Rattle.c_tree.specs.model.Parts.{line_text, line_of, children_of, constant_node, member_node, parameter_node};

use crate::words::{assign_word, basic_words, binary_word, name_or_dash, step_word, unary_word};
use bk_containers::Name;
use c_tree::{Constant, Declaration, Expr, Parameter, TypeNode};
use std::alloc::{AllocError, Global};

/// Puts the line that says the word and the text.
#[tactic(auto)]
pub fn put_line(out: &mut Vec<u8>, indent: &[u8], word: &str, text: &[u8]) -> Result<(), AllocError>
    ensures { OnOk result (out.new.items ≡ out.old.items ++ line_text indent.now (word.now ++ text.now)) }
{
    out.extend_from_slice(indent)?;
    out.extend_from_slice(word.as_bytes())?;
    out.extend_from_slice(text)?;
    out.extend_from_slice(b"\n")
}

/// Puts the line that says the word and two texts.
#[tactic(auto)]
pub fn put_line_of_three(
    out: &mut Vec<u8>,
    indent: &[u8],
    word: &str,
    text: &[u8],
    more: &str,
) -> Result<(), AllocError>
    ensures { OnOk result (out.new.items ≡ out.old.items ++ line_text indent.now (word.now ++ text.now ++ more.now)) }
{
    out.extend_from_slice(indent)?;
    out.extend_from_slice(word.as_bytes())?;
    out.extend_from_slice(text)?;
    out.extend_from_slice(more.as_bytes())?;
    out.extend_from_slice(b"\n")
}

/// The indentation of the children.
#[tactic(auto)]
pub fn below(alloc: Global, indent: &[u8]) -> Result<Vec<u8>, AllocError>
    ensures { IfOk result (λ v. v.items ≡ indent.now ++ 32 ∷ 32 ∷ []) }
{
    let mut v = Vec::from_slice(alloc, indent)?;
    v.extend_from_slice(b"  ")?;
    Ok(v)
}

/// The spellings, with a blank before each.
#[tactic(auto)]
fn spellings_text(alloc: Global, spellings: &[Name]) -> Result<Vec<u8>, AllocError>
    ensures { IfOk result (λ v. v.items ≡ words.spellings_text spellings.now) }
{
    let mut v = Vec::new(alloc);
    for spelling in spellings {
        v.push(b' ')?;
        v.extend_from_slice(spelling.as_slice())?;
    }
    Ok(v)
}

/// Puts the line of an expression.
#[tactic(auto, unfolding(c_tree::specs::model::Open::opens))]
fn expr_line(alloc: Global, out: &mut Vec<u8>, indent: &[u8], e: &Expr) -> Result<(), AllocError>
    ensures { OnOk result (out.new.items ≡ out.old.items ++ line_text indent.now (line_of (expr_node e.now))) }
{
    match e {
        Expr::Name { name, .. } => put_line(out, indent, "name ", name.as_slice()),
        Expr::Number { spelling, .. } => put_line(out, indent, "number ", spelling.as_slice()),
        Expr::Character { spelling, .. } => {
            put_line(out, indent, "character ", spelling.as_slice())
        }
        Expr::Text { spellings, .. } => {
            let text = spellings_text(alloc, spellings.as_slice())?;
            put_line(out, indent, "text", &text)
        }
        Expr::Call { name, .. } => put_line(out, indent, "call ", name.as_slice()),
        Expr::Unary { op, .. } => put_line(out, indent, "unary ", unary_word(*op).as_bytes()),
        Expr::Binary { op, .. } => put_line(out, indent, "binary ", binary_word(*op).as_bytes()),
        Expr::Assign { op, .. } => put_line(out, indent, "assign ", assign_word(*op).as_bytes()),
        Expr::Conditional { .. } => put_line(out, indent, "choose", b""),
        Expr::Cast { .. } => put_line(out, indent, "cast", b""),
        Expr::SizeOfValue { .. } => put_line(out, indent, "sizeof", b""),
        Expr::SizeOfType { .. } => put_line(out, indent, "sizeof", b""),
        Expr::Index { .. } => put_line(out, indent, "index", b""),
        Expr::Field { name, .. } => put_line(out, indent, "field ", name.as_slice()),
        Expr::Arrow { name, .. } => put_line(out, indent, "arrow ", name.as_slice()),
        Expr::Postfix { op, .. } => put_line(out, indent, "after ", step_word(*op).as_bytes()),
        Expr::Comma { .. } => put_line(out, indent, "comma", b""),
    }
}

/// Puts an expression.
#[cycle(ast)]
pub fn put_expr(alloc: Global, out: &mut Vec<u8>, indent: &[u8], e: &Expr) -> Result<(), AllocError>
    ensures { OnOk result (out.new.items ≡ out.old.items ++ node_text indent.now (expr_node e.now)) }
{
    expr_line(alloc, out, indent, e)?;
    let indent = below(alloc, indent)?;
    put_operands(alloc, out, &indent, e)
}

/// Puts what stands under an expression.
#[cycle(ast)]
fn put_operands(alloc: Global, out: &mut Vec<u8>, indent: &[u8], e: &Expr) -> Result<(), AllocError>
    ensures { OnOk result (out.new.items ≡ out.old.items ++ nodes_text indent.now (children_of (expr_node e.now))) }
{
    match e {
        Expr::Call { arguments, .. } => put_exprs(alloc, out, indent, arguments.as_slice()),
        Expr::Comma { operands, .. } => put_exprs(alloc, out, indent, operands.as_slice()),
        Expr::Unary { operand, .. } => put_expr(alloc, out, indent, operand),
        Expr::SizeOfValue { operand, .. } => put_expr(alloc, out, indent, operand),
        Expr::Field { operand, .. } => put_expr(alloc, out, indent, operand),
        Expr::Arrow { operand, .. } => put_expr(alloc, out, indent, operand),
        Expr::Postfix { operand, .. } => put_expr(alloc, out, indent, operand),
        Expr::Binary { left, right, .. } => {
            put_expr(alloc, out, indent, left)?;
            put_expr(alloc, out, indent, right)
        }
        Expr::Assign { left, right, .. } => {
            put_expr(alloc, out, indent, left)?;
            put_expr(alloc, out, indent, right)
        }
        Expr::Index { left, right, .. } => {
            put_expr(alloc, out, indent, left)?;
            put_expr(alloc, out, indent, right)
        }
        Expr::Conditional {
            condition,
            holds,
            fails,
            ..
        } => {
            put_expr(alloc, out, indent, condition)?;
            put_expr(alloc, out, indent, holds)?;
            put_expr(alloc, out, indent, fails)
        }
        Expr::Cast { to, operand, .. } => {
            put_type(alloc, out, indent, &to.ty)?;
            put_expr(alloc, out, indent, operand)
        }
        Expr::SizeOfType { operand, .. } => put_type(alloc, out, indent, &operand.ty),
        _ => Ok(()),
    }
}

/// Puts expressions.
#[cycle(ast)]
fn put_exprs(
    alloc: Global,
    out: &mut Vec<u8>,
    indent: &[u8],
    list: &[Expr],
) -> Result<(), AllocError>
    ensures { OnOk result (out.new.items ≡ out.old.items ++ nodes_text indent.now (nodes_of expr_node list.now)) }
{
    for e in list {
        put_expr(alloc, out, indent, e)?;
    }
    Ok(())
}

/// Puts an expression that may be missing.
#[cycle(ast)]
fn put_value(
    alloc: Global,
    out: &mut Vec<u8>,
    indent: &[u8],
    value: &Option<Expr>,
) -> Result<(), AllocError>
    ensures { OnOk result (out.new.items ≡ out.old.items ++ nodes_text indent.now (optional value.now)) }
{
    match value {
        Some(e) => put_expr(alloc, out, indent, e),
        None => Ok(()),
    }
}

/// Puts the line of a type.
#[tactic(auto, unfolding(c_tree::specs::model::Open::opens))]
fn type_line(out: &mut Vec<u8>, indent: &[u8], ty: &TypeNode) -> Result<(), AllocError>
    ensures { OnOk result (out.new.items ≡ out.old.items ++ line_text indent.now (line_of (type_node ty.now))) }
{
    match ty {
        TypeNode::Basic(words) => put_line(out, indent, "basic ", basic_words(*words).as_bytes()),
        TypeNode::Named(name) => put_line(out, indent, "named ", name.as_slice()),
        TypeNode::Enum { tag, .. } => put_line(out, indent, "enum ", name_or_dash(tag)),
        TypeNode::Struct { tag, .. } => put_line(out, indent, "struct ", name_or_dash(tag)),
        TypeNode::Pointer(_) => put_line(out, indent, "pointer", b""),
        TypeNode::Array { .. } => put_line(out, indent, "array", b""),
        TypeNode::Takes { .. } => put_line(out, indent, "takes", b""),
    }
}

/// Puts a type.
#[cycle(ast)]
pub fn put_type(
    alloc: Global,
    out: &mut Vec<u8>,
    indent: &[u8],
    ty: &TypeNode,
) -> Result<(), AllocError>
    ensures { OnOk result (out.new.items ≡ out.old.items ++ node_text indent.now (type_node ty.now)) }
{
    type_line(out, indent, ty)?;
    let indent = below(alloc, indent)?;
    put_type_parts(alloc, out, &indent, ty)
}

/// Puts what stands under a type.
#[cycle(ast)]
fn put_type_parts(
    alloc: Global,
    out: &mut Vec<u8>,
    indent: &[u8],
    ty: &TypeNode,
) -> Result<(), AllocError>
    ensures { OnOk result (out.new.items ≡ out.old.items ++ nodes_text indent.now (children_of (type_node ty.now))) }
{
    match ty {
        TypeNode::Basic(_) => Ok(()),
        TypeNode::Named(_) => Ok(()),
        TypeNode::Enum { constants, .. } => match constants {
            Some(constants) => put_constants(alloc, out, indent, constants.as_slice()),
            None => Ok(()),
        },
        TypeNode::Struct { members, .. } => match members {
            Some(members) => put_members(alloc, out, indent, members.as_slice()),
            None => Ok(()),
        },
        TypeNode::Pointer(target) => put_type(alloc, out, indent, target),
        TypeNode::Array { element, length } => {
            put_type(alloc, out, indent, element)?;
            match length {
                Some(length) => put_expr(alloc, out, indent, length),
                None => Ok(()),
            }
        }
        TypeNode::Takes {
            result: returned,
            parameters,
        } => {
            put_type(alloc, out, indent, returned)?;
            put_parameters(alloc, out, indent, parameters.as_slice())
        }
    }
}

/// Puts enumeration constants.
#[cycle(ast)]
fn put_constants(
    alloc: Global,
    out: &mut Vec<u8>,
    indent: &[u8],
    list: &[Constant],
) -> Result<(), AllocError>
    ensures { OnOk result (out.new.items ≡ out.old.items ++ nodes_text indent.now (nodes_of constant_node list.now)) }
{
    let under = below(alloc, indent)?;
    for constant in list {
        put_line(out, indent, "constant ", constant.name.as_slice())?;
        put_value(alloc, out, &under, &constant.value)?;
    }
    Ok(())
}

/// Puts members.
#[cycle(ast)]
fn put_members(
    alloc: Global,
    out: &mut Vec<u8>,
    indent: &[u8],
    list: &[Declaration],
) -> Result<(), AllocError>
    ensures { OnOk result (out.new.items ≡ out.old.items ++ nodes_text indent.now (nodes_of member_node list.now)) }
{
    let under = below(alloc, indent)?;
    for member in list {
        put_line(out, indent, "member ", member.name.as_slice())?;
        put_type(alloc, out, &under, &member.ty)?;
    }
    Ok(())
}

/// Puts parameters.
#[cycle(ast)]
fn put_parameters(
    alloc: Global,
    out: &mut Vec<u8>,
    indent: &[u8],
    list: &[Parameter],
) -> Result<(), AllocError>
    ensures { OnOk result (out.new.items ≡ out.old.items ++ nodes_text indent.now (nodes_of parameter_node list.now)) }
{
    let under = below(alloc, indent)?;
    for parameter in list {
        put_line(out, indent, "parameter ", name_or_dash(&parameter.name))?;
        put_type(alloc, out, &under, &parameter.ty)?;
    }
    Ok(())
}
