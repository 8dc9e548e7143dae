//! The places of the nodes of trees, which no printed text shows.

use crate::trees::refusal_line;
use anyhow::{Result, ensure};
use bk_containers::Box;
use c_lexer::TEXT_LIMIT;
use c_parser::parse;
use c_tree::{
    Constant, Declaration, Expr, External, ForFirst, FunctionEnd, Init, Label, LocalDeclarator,
    Parameter, Section, Stmt, TypeNode,
};
use row_sheets::escape::unescape;
use std::alloc::{AllocError, Global};

type Answer = Result<(), AllocError>;

/// The places that were found so far, each behind the word of its node.
#[derive(Drop)]
struct Places {
    alloc: Global,
    list: String,
}

impl Places {
    fn put(&mut self, word: &str, at: u32) -> Answer {
        if !self.list.is_empty() {
            self.list.push(' ')?;
        }
        self.list.push_str(&format!(in self.alloc; "{word} {at}")?)
    }

    #[cycle(expressions)]
    fn exprs(&mut self, exprs: &[Expr]) -> Answer {
        for expr in exprs {
            self.expr(expr)?;
        }
        Ok(())
    }

    #[cycle(expressions)]
    fn expr(&mut self, expr: &Expr) -> Answer {
        match expr {
            Expr::Name { at, .. } => self.put("name", *at),
            Expr::Number { at, .. } => self.put("number", *at),
            Expr::Character { at, .. } => self.put("character", *at),
            Expr::Text { at, .. } => self.put("text", *at),
            Expr::Call { at, arguments, .. } => {
                self.put("call", *at)?;
                self.exprs(arguments.as_slice())
            }
            Expr::Unary { at, operand, .. } => {
                self.put("unary", *at)?;
                self.expr(operand)
            }
            Expr::Postfix { at, operand, .. } => {
                self.put("after", *at)?;
                self.expr(operand)
            }
            Expr::Binary {
                at,
                left,
                right,
                ..
            } => {
                self.put("binary", *at)?;
                self.expr(left)?;
                self.expr(right)
            }
            Expr::Assign {
                at,
                left,
                right,
                ..
            } => {
                self.put("assign", *at)?;
                self.expr(left)?;
                self.expr(right)
            }
            _ => self.other_expr(expr),
        }
    }

    #[cycle(expressions)]
    fn other_expr(&mut self, expr: &Expr) -> Answer {
        match expr {
            Expr::Conditional {
                at,
                condition,
                holds,
                fails,
            } => {
                self.put("choose", *at)?;
                self.expr(condition)?;
                self.expr(holds)?;
                self.expr(fails)
            }
            Expr::Cast { at, to, operand } => {
                self.put("cast", *at)?;
                self.put("type", to.at)?;
                self.ty(&to.ty)?;
                self.expr(operand)
            }
            Expr::SizeOfValue { at, operand } => {
                self.put("sizeof", *at)?;
                self.expr(operand)
            }
            Expr::SizeOfType { at, operand } => {
                self.put("sizeof", *at)?;
                self.put("type", operand.at)?;
                self.ty(&operand.ty)
            }
            Expr::Index { at, left, right } => {
                self.put("index", *at)?;
                self.expr(left)?;
                self.expr(right)
            }
            Expr::Field { at, operand, .. } => {
                self.put("field", *at)?;
                self.expr(operand)
            }
            Expr::Arrow { at, operand, .. } => {
                self.put("arrow", *at)?;
                self.expr(operand)
            }
            Expr::Comma { at, operands } => {
                self.put("comma", *at)?;
                self.exprs(operands.as_slice())
            }
            _ => Ok(()),
        }
    }

    #[cycle(expressions)]
    fn ty(&mut self, ty: &TypeNode) -> Answer {
        match ty {
            TypeNode::Basic(_) | TypeNode::Named(_) => Ok(()),
            TypeNode::Enum { at, constants, .. } => {
                self.put("enum", *at)?;
                match constants {
                    Some(constants) => self.constants(constants.as_slice()),
                    None => Ok(()),
                }
            }
            TypeNode::Struct { at, members, .. } => {
                self.put("struct", *at)?;
                match members {
                    Some(members) => self.members(members.as_slice()),
                    None => Ok(()),
                }
            }
            TypeNode::Pointer(target) => self.ty(target),
            TypeNode::Array { element, length } => {
                self.ty(element)?;
                match length {
                    Some(length) => self.expr(length),
                    None => Ok(()),
                }
            }
            TypeNode::Takes { result, parameters } => {
                self.ty(result)?;
                self.parameters(parameters.as_slice())
            }
        }
    }

    #[cycle(expressions)]
    fn constants(&mut self, constants: &[Constant]) -> Answer {
        for constant in constants {
            self.put("constant", constant.at)?;
            if let Some(value) = &constant.value {
                self.expr(value)?;
            }
        }
        Ok(())
    }

    #[cycle(expressions)]
    fn members(&mut self, members: &[Declaration]) -> Answer {
        for member in members {
            self.put("member", member.at)?;
            self.ty(&member.ty)?;
        }
        Ok(())
    }

    #[cycle(expressions)]
    fn parameters(&mut self, parameters: &[Parameter]) -> Answer {
        for parameter in parameters {
            self.put("parameter", parameter.at)?;
            self.ty(&parameter.ty)?;
        }
        Ok(())
    }

    fn declaration(&mut self, word: &str, declaration: &Declaration) -> Answer {
        self.put(word, declaration.at)?;
        self.ty(&declaration.ty)
    }

    fn option(&mut self, expr: &Option<Box<Expr>>) -> Answer {
        match expr {
            Some(expr) => self.expr(expr),
            None => Ok(()),
        }
    }

    fn locals(&mut self, locals: &[LocalDeclarator]) -> Answer {
        for local in locals {
            self.local(local)?;
        }
        Ok(())
    }

    fn local(&mut self, local: &LocalDeclarator) -> Answer {
        self.declaration("local", &local.declaration)?;
        self.option(&local.init)
    }

    fn first(&mut self, first: &ForFirst) -> Answer {
        match first {
            ForFirst::Nothing => Ok(()),
            ForFirst::Value(value) => self.expr(value),
            ForFirst::Locals(locals) => self.locals(locals.as_slice()),
        }
    }

    #[cycle(statements)]
    fn statements(&mut self, statements: &[Stmt]) -> Answer {
        for statement in statements {
            self.statement(statement)?;
        }
        Ok(())
    }

    #[cycle(statements)]
    fn sections(&mut self, sections: &[Section]) -> Answer {
        for section in sections {
            match &section.label {
                Label::Case { at, value } => {
                    self.put("case", *at)?;
                    self.expr(value)?;
                }
                Label::Default { at } => self.put("default", *at)?,
            }
            self.statements(section.statements.as_slice())?;
        }
        Ok(())
    }

    #[cycle(statements)]
    fn statement(&mut self, statement: &Stmt) -> Answer {
        match statement {
            Stmt::Break { at } => self.put("break", *at),
            Stmt::Continue { at } => self.put("continue", *at),
            Stmt::Return { at, value } => {
                self.put("return", *at)?;
                self.option(value)
            }
            Stmt::Expression(expr) => self.expr(expr),
            Stmt::Empty => Ok(()),
            Stmt::Local(local) => self.local(local),
            _ => self.inner_statements(statement),
        }
    }

    /// The statements that others stand in.
    #[cycle(statements)]
    fn inner_statements(&mut self, statement: &Stmt) -> Answer {
        match statement {
            Stmt::Block(statements) => self.statements(statements.as_slice()),
            Stmt::If {
                condition,
                then,
                otherwise,
            } => {
                self.expr(condition)?;
                self.statement(then)?;
                match otherwise {
                    Some(otherwise) => self.statement(otherwise),
                    None => Ok(()),
                }
            }
            Stmt::While { condition, body } => {
                self.expr(condition)?;
                self.statement(body)
            }
            Stmt::Do { body, condition } => {
                self.statement(body)?;
                self.expr(condition)
            }
            Stmt::For {
                first,
                condition,
                step,
                body,
            } => {
                self.first(first)?;
                self.option(condition)?;
                self.option(step)?;
                self.statement(body)
            }
            Stmt::Switch { operand, sections } => {
                self.expr(operand)?;
                self.sections(sections.as_slice())
            }
            _ => Ok(()),
        }
    }

    fn init(&mut self, init: &Init) -> Answer {
        match init {
            Init::Value(value) => self.expr(value),
            Init::List { at, items } => {
                self.put("list", *at)?;
                for item in items.as_slice() {
                    self.init(item)?;
                }
                Ok(())
            }
        }
    }

    fn external(&mut self, external: &External) -> Answer {
        match external {
            External::Typedef(declaration) => self.declaration("typedef", declaration),
            External::Object {
                declaration,
                init,
                ..
            } => {
                self.declaration("object", declaration)?;
                match init {
                    Some(init) => self.init(init),
                    None => Ok(()),
                }
            }
            External::Function {
                declaration,
                end,
                ..
            } => {
                self.declaration("function", declaration)?;
                match end {
                    FunctionEnd::Nothing => Ok(()),
                    FunctionEnd::Init(init) => self.init(init),
                    FunctionEnd::Body(body) => self.statements(body.as_slice()),
                }
            }
            External::Tags { ty, .. } => self.ty(ty),
        }
    }
}

/// The nodes of a text's tree that have a place, each by its word with its place.
pub fn answer(alloc: Global, given: &str) -> Result<Vec<u8>> {
    let text = unescape(alloc, given)?;
    ensure!(text.len() <= TEXT_LIMIT, "a text that is too long");
    let unit = match parse(alloc, text.as_slice()) {
        Ok(unit) => unit,
        Err(fault) => return Ok(refusal_line(alloc, fault)?),
    };
    let mut places = Places {
        alloc,
        list: String::new(alloc),
    };
    for external in unit.externals.as_slice() {
        places.external(external)?;
    }
    places.list.push('\n')?;
    let Places { list, .. } = places;
    Ok(list.into_bytes())
}
