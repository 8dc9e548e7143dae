//! Programs over temporaries as items.

ghost use Rattle.std.specs.Prelude.{IfOk};
ghost use Rattle.alloc_model.specs.Places.{plan_of};
ghost use Rattle.alloc_model.specs.Faithful.{Faithful};

use crate::callee_saved_rows::{KeptRegister, kept_over_call};
use alloc_model::allocation::Allocation;
use alloc_plain::plain;
use alpha_items::final_fn::FinalFn;
use anyhow::{Context, Result, bail, ensure};
use bk_containers::{Name, Seq};
use frame_checks::can_be_laid_out;
use frame_layout::finalise;
use mem_objects::{DataObject, MOST_DATA, data_end, next_place};
use pass_core::function::Func;
use row_sheets::number::{number, numbers};
use row_temp_texts::reader::TempReader;
use std::alloc::Global;
use temp_checks::is_settled;
use temp_ir::insn::TempInsn;

/// The label of the first block of the first function. The functions themselves have those from 256 on.
const FIRST_LABEL: u32 = 300;

/// What the lines of a row make.
#[derive(Drop)]
pub struct Program {
    /// The functions as items.
    pub finals: Vec<FinalFn>,
    /// Objects of static storage.
    pub globals: Vec<DataObject>,
}

/// Objects of static storage of these sizes, one behind the other.
fn globals_of(alloc: Global, given: &str) -> Result<Vec<DataObject>> {
    let mut globals = Vec::new(alloc);
    for line in given.lines() {
        if let Some(sizes) = line.strip_prefix("globals ") {
            for size in &numbers(alloc, sizes)? {
                let end = data_end(globals.as_slice());
                ensure!(end <= MOST_DATA, "too much data");
                ensure!(*size <= MOST_DATA, "an object is too large");
                globals.push(DataObject {
                    name: Name::from_slice(alloc, b"")?,
                    size: *size,
                    align: 8,
                    offset: next_place(end),
                    writable: true,
                    cells: Seq::new(alloc),
                })?;
            }
        }
    }
    Ok(globals)
}

/// The plainest allocation of a function.
fn in_slots(alloc: Global, f: &Func<TempInsn>) -> Result<Allocation>
    ensures { IfOk result (λ a. Faithful (plan_of a)) }
{
    if !is_settled(alloc, f)? {
        bail!("a fixed register is read that was not written in its block");
    }
    Ok(plain(alloc, f)?)
}

/// A register that a called function keeps.
fn kept_register(text: &str) -> Result<KeptRegister> {
    match text {
        "$9" => Ok(KeptRegister::Register9),
        "$10" => Ok(KeptRegister::Register10),
        "$11" => Ok(KeptRegister::Register11),
        "$12" => Ok(KeptRegister::Register12),
        "$13" => Ok(KeptRegister::Register13),
        "$14" => Ok(KeptRegister::Register14),
        "$15" => Ok(KeptRegister::Register15),
        _ => bail!("{text:?} is no register that is kept"),
    }
}

/// The allocation of a function that keeps a value in a register over a call.
fn over_a_call(alloc: Global, given: &str) -> Result<Allocation>
    ensures { IfOk result (λ a. Faithful (plan_of a)) }
{
    let mut words = given.split(' ');
    let name = words.next().context("it has a name")?;
    let register = kept_register(words.next().context("it has a register")?)?;
    let value = i16::try_from(number(words.next().context("it has a value")?)?)?;
    let callee = u32::try_from(number(words.next().context("it calls a function")?)?)?;
    Ok(kept_over_call(alloc, name.as_bytes(), register, value, callee)?)
}

/// The label of the first block of the function behind these.
fn next_label(finals: &[FinalFn]) -> Result<u32> {
    let mut label = FIRST_LABEL;
    for made in finals {
        label = label.checked_add(made.labels).context("too many labels")?;
    }
    Ok(label)
}

/// Puts the items of a function with a faithful allocation behind the others.
fn lay_out(
    alloc: Global,
    a: &Allocation,
    globals: &[DataObject],
    finals: &mut Vec<FinalFn>,
) -> Result<()>
    requires { Faithful (plan_of a.now) }
{
    let number = u32::try_from(finals.len())?;
    let first_label = next_label(finals.as_slice())?;
    if !can_be_laid_out(a, globals, number, first_label) {
        bail!("a function cannot be laid out");
    }
    finals.push(finalise(alloc, a, globals, number, first_label)?)?;
    Ok(())
}

/// The lines of a row but for those of functions that keep a value in a register.
fn without_kept(alloc: Global, given: &str) -> Result<String> {
    let mut rest = String::new(alloc);
    for line in given.lines() {
        if !line.starts_with("kept ") {
            rest.push_str(line)?;
            rest.push('\n')?;
        }
    }
    Ok(rest)
}

/// Puts the functions of a row that keep a value in a register behind the others.
fn put_kept(alloc: Global, given: &str, program: &mut Program) -> Result<()> {
    for line in given.lines() {
        if let Some(words) = line.strip_prefix("kept ") {
            let a = over_a_call(alloc, words)?;
            let put = lay_out(alloc, &a, program.globals.as_slice(), &mut program.finals);
            // So the drops of its parts are proved apart, here and below.
            drop(a);
            put?;
        }
    }
    Ok(())
}

/// Puts functions whose values live in slots behind the others.
fn put_in_slots(alloc: Global, functions: &[Func<TempInsn>], program: &mut Program) -> Result<()> {
    for function in functions {
        let a = in_slots(alloc, function)?;
        let put = lay_out(alloc, &a, program.globals.as_slice(), &mut program.finals);
        drop(a);
        put?;
    }
    Ok(())
}

/// Puts the functions of a row. Those that keep a value in a register come first.
fn put_functions(alloc: Global, given: &str, program: &mut Program) -> Result<()> {
    put_kept(alloc, given, program)?;
    let rest = without_kept(alloc, given)?;
    let reader = TempReader::of(alloc, rest.as_str())?;
    let put = put_in_slots(alloc, reader.functions.as_slice(), program);
    drop(reader);
    put
}

/// The functions of a text as items, each with labels of its own, and the objects.
pub fn program_of(alloc: Global, given: &str) -> Result<Program> {
    let mut program = Program {
        finals: Vec::new(alloc),
        globals: globals_of(alloc, given)?,
    };
    match put_functions(alloc, given, &mut program) {
        Ok(()) => Ok(program),
        Err(error) => {
            drop(program);
            Err(error)
        }
    }
}
