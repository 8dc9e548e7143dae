//! Runs of programs over temporaries on the machine.

use crate::program::{Program, program_of};
use alpha_asm::assemble::{AsmFault, assemble};
use alpha_isa::image::Image;
use alpha_isa::insn::{BranchOp, Fields, Insn32, MemoryOp, Operand, OperateOp};
use alpha_isa::limits::{LEAST_STACK, MOST_STACK};
use alpha_items::item::AsmItem;
use alpha_lines::print::{push_data, push_item};
use alpha_rt::items::routine_items;
use alpha_run::machine::Machine;
use alpha_text::read::read_asm;
use anyhow::{Result, bail, ensure};
use bk_io::memory::{MemSink, MemSource};
use mem_objects::data_end;
use row_sheets::escape::unescape;
use row_sheets::number::number;
use std::alloc::Global;

/// How many steps a run may take.
const BUDGET: u64 = 10_000_000;

/// How many bytes a run may put.
const ROOM: u64 = 4096;

/// What a row says of a run besides its program.
#[derive(Drop)]
struct Outside {
    input: Vec<u8>,
    /// The bytes of the stack.
    stack: u64,
}

/// What the lines of a row say of its run.
fn outside_of(alloc: Global, given: &str) -> Result<Outside> {
    let mut outside = Outside {
        input: Vec::new(alloc),
        stack: 65_536,
    };
    for line in given.lines() {
        match line.split_once(' ') {
            Some(("input", bytes)) => outside.input = unescape(alloc, bytes)?,
            Some(("stack", size)) => outside.stack = number(size)?,
            _ => {}
        }
    }
    Ok(outside)
}

/// What a run begins with: the function with the number 0 is called, and the run ends with the status that it returns.
fn start_piece() -> [AsmItem; 5] {
    [
        AsmItem::Label(0),
        AsmItem::Branch {
            op: BranchOp::Bsr,
            ra: 26,
            label: 256,
        },
        AsmItem::Plain(Insn32 {
            fields: Fields::Operate {
                op: OperateOp::Bis,
                ra: 31,
                rb: Operand::Reg(0),
                rc: 16,
            },
        }),
        AsmItem::Plain(Insn32 {
            fields: Fields::Memory {
                op: MemoryOp::Lda,
                ra: 0,
                rb: 31,
                disp: 1,
            },
        }),
        AsmItem::Plain(Insn32 {
            fields: Fields::Pal { function: 131 },
        }),
    ]
}

/// Puts the lines of items.
fn put_lines(text: &mut Vec<u8>, items: &[AsmItem]) -> Result<()> {
    for item in items {
        push_item(text, item)?;
        text.push(b'\n')?;
    }
    Ok(())
}

/// Puts so many bytes of data, all zero, 32 in a line.
fn put_zeros(text: &mut Vec<u8>, size: u64) -> Result<()> {
    push_data(text, size)?;
    for place in 0..size {
        if place % 32 == 0 {
            text.extend_from_slice(b"\n.hex ")?;
        }
        text.extend_from_slice(b"00")?;
    }
    text.push(b'\n')?;
    Ok(())
}

/// The assembly text of a program.
fn text_of(alloc: Global, program: &Program) -> Result<Vec<u8>> {
    let mut text = Vec::new(alloc);
    text.extend_from_slice(b".msa 1\n")?;
    put_lines(&mut text, &start_piece())?;
    for made in &program.finals {
        put_lines(&mut text, made.items.as_slice())?;
    }
    put_lines(&mut text, routine_items(alloc)?.as_slice())?;
    put_zeros(&mut text, data_end(program.globals.as_slice()))?;
    Ok(text)
}

/// The image of a program, by way of its text.
fn image_of(alloc: Global, program: &Program) -> Result<Image> {
    let text = text_of(alloc, program)?;
    let asm = read_asm(alloc, text.as_slice())?;
    match assemble(alloc, &asm) {
        Ok(image) => Ok(image),
        Err(AsmFault::CodeTooLong { words }) => bail!("{words} words"),
        Err(AsmFault::NoMemory) => bail!("there was no memory"),
    }
}

/// A machine with an image in it, and a stack of so many bytes.
fn machine_of(alloc: Global, image: &Image, stack: u64) -> Result<Machine> {
    ensure!(stack >= LEAST_STACK, "the stack is too small");
    ensure!(stack <= MOST_STACK, "the stack is too large");
    ensure!(stack % 16 == 0, "the stack is no multiple of 16");
    Ok(Machine::load(alloc, image, stack)?)
}

/// How the program of a row ends on the machine, and what it puts.
pub fn answer(alloc: Global, given: &str) -> Result<Vec<u8>> {
    let program = program_of(alloc, given)?;
    let image = image_of(alloc, &program);
    // So the drops of its parts are proved apart, here and below.
    drop(program);
    let image = image?;
    let outside = outside_of(alloc, given)?;
    let loaded = machine_of(alloc, &image, outside.stack);
    drop(image);
    let mut machine = loaded?;
    let mut input = MemSource::new(outside.input, Vec::new(alloc));
    let mut out = MemSink::new(alloc, ROOM, Vec::new(alloc))?;
    let ending = machine.run(BUDGET, &mut input, &mut out);
    drop(machine);
    let mut shown = format!(in alloc; "{ending:?}")?.into_bytes();
    if !out.taken_bytes().is_empty() {
        shown.extend_from_slice(b" out ")?;
        shown.extend_from_slice(out.taken_bytes())?;
    }
    shown.push(b'\n')?;
    Ok(shown)
}
