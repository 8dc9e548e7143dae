//! The text of statements, externals and units.
#![tactic(auto, using(c_tree::proofs::Rows::rows), unfolding(c_tree::specs::model::Open::opens))]

ghost use Rattle.std.specs.Prelude.{◌≡◌, ◌++◌, [], IfOk, OnOk};
ghost use Rattle.c_tree.specs.Nodes.{nodes_of, nodes_text, node_text, optional, local_node, first_nodes, part_of_for, label_line, label_nodes, type_node, stmt_node, init_node, optional_init, end_nodes, external_node, text_of};
ghost use Rattle.c_tree.specs.model.Parts.{line_text, line_of, children_of, section_node, else_nodes};

use crate::print::{below, put_expr, put_line, put_line_of_three, put_type};
use crate::words::storage_text;
use bk_containers::Box;
use c_tree::{
    Declaration, Expr, External, ForFirst, FunctionEnd, Init, Label, LocalDeclarator, Section,
    Stmt, TranslationUnit,
};
use std::alloc::{AllocError, Global};

/// Puts an expression in a box that may be missing.
fn put_boxed_value(
    alloc: Global,
    out: &mut Vec<u8>,
    indent: &[u8],
    value: &Option<Box<Expr>>,
) -> Result<(), AllocError>
    ensures { OnOk result (out.new.items ≡ out.old.items ++ nodes_text indent.now (optional value.now)) }
{
    match value {
        Some(e) => put_expr(alloc, out, indent, e),
        None => Ok(()),
    }
}

/// Puts a declaration in a block.
fn put_local(
    alloc: Global,
    out: &mut Vec<u8>,
    indent: &[u8],
    local: &LocalDeclarator,
) -> Result<(), AllocError>
    ensures { OnOk result (out.new.items ≡ out.old.items ++ node_text indent.now (local_node local.now)) }
{
    put_line(out, indent, "local ", local.declaration.name.as_slice())?;
    let indent = below(alloc, indent)?;
    put_type(alloc, out, &indent, &local.declaration.ty)?;
    put_boxed_value(alloc, out, &indent, &local.init)
}

/// Puts declarations in a block.
#[tactic(auto)]
fn put_locals(
    alloc: Global,
    out: &mut Vec<u8>,
    indent: &[u8],
    list: &[LocalDeclarator],
) -> Result<(), AllocError>
    ensures { OnOk result (out.new.items ≡ out.old.items ++ nodes_text indent.now (nodes_of local_node list.now)) }
{
    for local in list {
        put_local(alloc, out, indent, local)?;
    }
    Ok(())
}

/// Puts the first part of a `for`.
fn put_first(
    alloc: Global,
    out: &mut Vec<u8>,
    indent: &[u8],
    first: &ForFirst,
) -> Result<(), AllocError>
    ensures { OnOk result (out.new.items ≡ out.old.items ++ nodes_text indent.now (first_nodes first.now)) }
{
    match first {
        ForFirst::Nothing => put_line(out, indent, "none", b""),
        ForFirst::Value(e) => put_expr(alloc, out, indent, e),
        ForFirst::Locals(list) => put_locals(alloc, out, indent, list.as_slice()),
    }
}

/// Puts the condition or the step of a `for`.
fn put_part_of_for(
    alloc: Global,
    out: &mut Vec<u8>,
    indent: &[u8],
    part: &Option<Box<Expr>>,
) -> Result<(), AllocError>
    ensures { OnOk result (out.new.items ≡ out.old.items ++ node_text indent.now (part_of_for part.now)) }
{
    match part {
        Some(e) => put_expr(alloc, out, indent, e),
        None => put_line(out, indent, "none", b""),
    }
}

/// Puts the line of a statement.
#[tactic(auto, unfolding(c_tree::specs::model::Open::opens))]
fn stmt_line(out: &mut Vec<u8>, indent: &[u8], stmt: &Stmt) -> Result<(), AllocError>
    ensures { OnOk result (out.new.items ≡ out.old.items ++ line_text indent.now (line_of (stmt_node stmt.now))) }
{
    match stmt {
        Stmt::Block(_) => put_line(out, indent, "block", b""),
        Stmt::If { .. } => put_line(out, indent, "if", b""),
        Stmt::While { .. } => put_line(out, indent, "while", b""),
        Stmt::Do { .. } => put_line(out, indent, "do", b""),
        Stmt::For { .. } => put_line(out, indent, "for", b""),
        Stmt::Switch { .. } => put_line(out, indent, "switch", b""),
        Stmt::Break { .. } => put_line(out, indent, "break", b""),
        Stmt::Continue { .. } => put_line(out, indent, "continue", b""),
        Stmt::Return { .. } => put_line(out, indent, "return", b""),
        Stmt::Expression(_) => put_line(out, indent, "expression", b""),
        Stmt::Empty => put_line(out, indent, "empty", b""),
        Stmt::Local(local) => { put_line(out, indent, "local ", local.declaration.name.as_slice()) }
    }
}

/// Puts a statement.
#[cycle(statement)]
fn put_stmt(alloc: Global, out: &mut Vec<u8>, indent: &[u8], stmt: &Stmt) -> Result<(), AllocError>
    ensures { OnOk result (out.new.items ≡ out.old.items ++ node_text indent.now (stmt_node stmt.now)) }
{
    stmt_line(out, indent, stmt)?;
    let indent = below(alloc, indent)?;
    put_parts(alloc, out, &indent, stmt)
}

/// Puts what stands under a statement.
#[cycle(statement)]
fn put_parts(alloc: Global, out: &mut Vec<u8>, indent: &[u8], stmt: &Stmt) -> Result<(), AllocError>
    ensures { OnOk result (out.new.items ≡ out.old.items ++ nodes_text indent.now (children_of (stmt_node stmt.now))) }
{
    match stmt {
        Stmt::Block(list) => put_stmts(alloc, out, indent, list.as_slice()),
        Stmt::If {
            condition,
            then,
            otherwise,
        } => {
            put_expr(alloc, out, indent, condition)?;
            put_stmt(alloc, out, indent, then)?;
            put_otherwise(alloc, out, indent, otherwise)
        }
        Stmt::While { condition, body } => {
            put_expr(alloc, out, indent, condition)?;
            put_stmt(alloc, out, indent, body)
        }
        Stmt::Do { body, condition } => {
            put_stmt(alloc, out, indent, body)?;
            put_expr(alloc, out, indent, condition)
        }
        Stmt::For {
            first,
            condition,
            step,
            body,
        } => {
            put_first(alloc, out, indent, first)?;
            put_part_of_for(alloc, out, indent, condition)?;
            put_part_of_for(alloc, out, indent, step)?;
            put_stmt(alloc, out, indent, body)
        }
        Stmt::Switch { operand, sections } => {
            put_expr(alloc, out, indent, operand)?;
            put_sections(alloc, out, indent, sections.as_slice())
        }
        Stmt::Break { .. } => Ok(()),
        Stmt::Continue { .. } => Ok(()),
        Stmt::Return { value, .. } => put_boxed_value(alloc, out, indent, value),
        Stmt::Expression(e) => put_expr(alloc, out, indent, e),
        Stmt::Empty => Ok(()),
        Stmt::Local(local) => {
            put_type(alloc, out, indent, &local.declaration.ty)?;
            put_boxed_value(alloc, out, indent, &local.init)
        }
    }
}

/// Puts the statement behind `else`, if there is one.
#[cycle(statement)]
fn put_otherwise(
    alloc: Global,
    out: &mut Vec<u8>,
    indent: &[u8],
    otherwise: &Option<Box<Stmt>>,
) -> Result<(), AllocError>
    ensures { OnOk result (out.new.items ≡ out.old.items ++ nodes_text indent.now (else_nodes otherwise.now)) }
{
    match otherwise {
        Some(stmt) => put_stmt(alloc, out, indent, stmt),
        None => Ok(()),
    }
}

/// Puts statements.
#[cycle(statement)]
fn put_stmts(
    alloc: Global,
    out: &mut Vec<u8>,
    indent: &[u8],
    list: &[Stmt],
) -> Result<(), AllocError>
    ensures { OnOk result (out.new.items ≡ out.old.items ++ nodes_text indent.now (nodes_of stmt_node list.now)) }
{
    for stmt in list {
        put_stmt(alloc, out, indent, stmt)?;
    }
    Ok(())
}

/// Puts the line of a label, and the value of a `case`.
fn put_label(
    alloc: Global,
    out: &mut Vec<u8>,
    indent: &[u8],
    under: &[u8],
    label: &Label,
) -> Result<(), AllocError>
    ensures { OnOk result (out.new.items ≡ (out.old.items ++ line_text indent.now (label_line label.now))
        ++ nodes_text under.now (label_nodes label.now)) }
{
    match label {
        Label::Case { value, .. } => {
            put_line(out, indent, "case", b"")?;
            put_expr(alloc, out, under, value)
        }
        Label::Default { .. } => put_line(out, indent, "default", b""),
    }
}

/// Puts the labels of a `switch` with their statements.
#[cycle(statement)]
fn put_sections(
    alloc: Global,
    out: &mut Vec<u8>,
    indent: &[u8],
    list: &[Section],
) -> Result<(), AllocError>
    ensures { OnOk result (out.new.items ≡ out.old.items ++ nodes_text indent.now (nodes_of section_node list.now)) }
{
    let under = below(alloc, indent)?;
    for section in list {
        put_label(alloc, out, indent, &under, &section.label)?;
        put_stmts(alloc, out, &under, section.statements.as_slice())?;
    }
    Ok(())
}

/// Puts an initialiser.
#[cycle(init)]
fn put_init(alloc: Global, out: &mut Vec<u8>, indent: &[u8], init: &Init) -> Result<(), AllocError>
    ensures { OnOk result (out.new.items ≡ out.old.items ++ node_text indent.now (init_node init.now)) }
{
    match init {
        Init::Value(e) => put_expr(alloc, out, indent, e),
        Init::List { items, .. } => {
            put_line(out, indent, "list", b"")?;
            let indent = below(alloc, indent)?;
            put_inits(alloc, out, &indent, items.as_slice())
        }
    }
}

/// Puts initialisers.
#[cycle(init)]
fn put_inits(
    alloc: Global,
    out: &mut Vec<u8>,
    indent: &[u8],
    list: &[Init],
) -> Result<(), AllocError>
    ensures { OnOk result (out.new.items ≡ out.old.items ++ nodes_text indent.now (nodes_of init_node list.now)) }
{
    for init in list {
        put_init(alloc, out, indent, init)?;
    }
    Ok(())
}

/// Puts the line of a declaration at file scope and its type.
#[tactic(auto)]
fn put_declaration(
    alloc: Global,
    out: &mut Vec<u8>,
    indent: &[u8],
    under: &[u8],
    word: &str,
    declaration: &Declaration,
    storage: &str,
) -> Result<(), AllocError>
    ensures { OnOk result (out.new.items
        ≡ (out.old.items ++ line_text indent.now (word.now ++ declaration.now.name ++ storage.now))
        ++ node_text under.now (type_node declaration.now.ty)) }
{
    put_line_of_three(out, indent, word, declaration.name.as_slice(), storage)?;
    put_type(alloc, out, under, &declaration.ty)
}

/// Puts an initialiser that may be missing.
fn put_optional_init(
    alloc: Global,
    out: &mut Vec<u8>,
    indent: &[u8],
    init: &Option<Init>,
) -> Result<(), AllocError>
    ensures { OnOk result (out.new.items ≡ out.old.items ++ nodes_text indent.now (optional_init init.now)) }
{
    match init {
        Some(init) => put_init(alloc, out, indent, init),
        None => Ok(()),
    }
}

/// Puts what follows the declarator of a function.
fn put_end(
    alloc: Global,
    out: &mut Vec<u8>,
    indent: &[u8],
    end: &FunctionEnd,
) -> Result<(), AllocError>
    ensures { OnOk result (out.new.items ≡ out.old.items ++ nodes_text indent.now (end_nodes end.now)) }
{
    match end {
        FunctionEnd::Nothing => Ok(()),
        FunctionEnd::Init(init) => put_init(alloc, out, indent, init),
        FunctionEnd::Body(list) => {
            put_line(out, indent, "block", b"")?;
            let indent = below(alloc, indent)?;
            put_stmts(alloc, out, &indent, list.as_slice())
        }
    }
}

/// Puts what stands at file scope.
fn put_external(
    alloc: Global,
    out: &mut Vec<u8>,
    indent: &[u8],
    external: &External,
) -> Result<(), AllocError>
    ensures { OnOk result (out.new.items ≡ out.old.items ++ node_text indent.now (external_node external.now)) }
{
    let under = below(alloc, indent)?;
    match external {
        External::Typedef(declaration) => {
            put_declaration(alloc, out, indent, &under, "typedef ", declaration, "")
        }
        External::Object {
            declaration,
            storage,
            init,
        } => {
            let storage = storage_text(*storage);
            put_declaration(alloc, out, indent, &under, "object ", declaration, storage)?;
            put_optional_init(alloc, out, &under, init)
        }
        External::Function {
            declaration,
            storage,
            end,
        } => {
            let storage = storage_text(*storage);
            put_declaration(
                alloc,
                out,
                indent,
                &under,
                "function ",
                declaration,
                storage,
            )?;
            put_end(alloc, out, &under, end)
        }
        External::Tags { storage, ty } => {
            put_line(out, indent, "tags", storage_text(*storage).as_bytes())?;
            put_type(alloc, out, &under, ty)
        }
    }
}

/// The text of a unit's tree: a line for each node in source order, with two blanks for each level
/// above it. A line is the node's word, and where the node has a text a blank and the text. It fails
/// only where memory is short.
#[tactic(auto)]
pub fn tree_text(alloc: Global, unit: &TranslationUnit) -> Result<Vec<u8>, AllocError>
    ensures { IfOk result (λ text. text.items ≡ text_of unit.now) }
{
    let mut out = Vec::new(alloc);
    for external in unit.externals.as_slice() {
        put_external(alloc, &mut out, b"", external)?;
    }
    Ok(out)
}
