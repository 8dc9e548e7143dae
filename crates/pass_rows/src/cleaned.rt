//! Programs over virtual registers behind the passes that clean their functions.

ghost use Rattle.std.specs.Prelude.{◌^◌, ◌≤◌, All};
ghost use Rattle.suifvm_ir.specs.Programs.{VmFunction, function_size};
ghost use Rattle.flow_clean.specs.Chains.{GoesBackToMarks};

use anyhow::{Context, Result, bail, ensure};
use bk_containers::Seq;
use bk_io::memory::{MemSink, MemSource};
use flow_clean::{dead_writes, jump_chains, local_copies};
use mem_objects::copy_objects;
use pass_core::function::Func;
use row_sheets::escape::unescape;
use row_sheets::number::numbers;
use row_vm_texts::reader::VmReader;
use row_vm_texts::text::{ROOM, check_text, names_of};
use std::alloc::Global;
use suifvm_checks::program::program_of;
use suifvm_checks::size::is_small;
use suifvm_ir::insn::VmInsn;
use suifvm_ir::program::VmProgram;
use suifvm_ir::vm_text;
use suifvm_run::run_vm;

/// The passes, in their order.
#[derive(Clone, Copy, Debug)]
enum CleaningPass {
    LocalCopies,
    DeadWrites,
    JumpChains,
}

/// The pass that a word names.
fn pass_of(word: &str) -> Result<CleaningPass> {
    match word {
        "copies" => Ok(CleaningPass::LocalCopies),
        "dead" => Ok(CleaningPass::DeadWrites),
        "chains" => Ok(CleaningPass::JumpChains),
        _ => bail!("no pass: {word:?}"),
    }
}

/// The passes of words with a blank between.
fn passes_of(alloc: Global, text: &str) -> Result<Vec<CleaningPass>> {
    let mut passes = Vec::new(alloc);
    for word in text.split(' ') {
        passes.push(pass_of(word)?)?;
    }
    Ok(passes)
}

/// What a row says besides its program.
#[derive(Drop)]
struct Asked {
    input: Vec<u8>,
    turns: Vec<u64>,
    passes: Vec<CleaningPass>,
}

impl Asked {
    /// Reads a line. Answers whether it is one of these.
    fn take(&mut self, alloc: Global, word: &str, rest: &str) -> Result<bool> {
        match word {
            "input" => self.input = unescape(alloc, rest)?,
            "turns" => self.turns = numbers(alloc, rest)?,
            "behind" => self.passes = passes_of(alloc, rest)?,
            _ => return Ok(false),
        }
        Ok(true)
    }
}

/// A function behind a pass and those before it.
fn function_behind(alloc: Global, f: &Func<VmInsn>, last: CleaningPass) -> Result<Func<VmInsn>>
    requires marks { GoesBackToMarks f.now.blocks }
    requires size { function_size f.now ≤ 2 ^ 24 }
{
    let copied = local_copies(alloc, f)?;
    if matches!(last, CleaningPass::LocalCopies) {
        return Ok(copied);
    }
    let live = dead_writes(alloc, &copied)?;
    if matches!(last, CleaningPass::DeadWrites) {
        return Ok(live);
    }
    Ok(jump_chains(alloc, live)?)
}

/// Functions behind a pass and those before it.
fn functions_behind(
    alloc: Global,
    functions: &[Func<VmInsn>],
    last: CleaningPass,
) -> Result<Seq<Func<VmInsn>>>
    requires marks { All (λ (f : VmFunction). GoesBackToMarks f.blocks) functions.now }
    requires sizes { All (λ (f : VmFunction). function_size f ≤ 2 ^ 24) functions.now }
{
    let mut behind = Seq::new(alloc);
    for f in functions {
        behind.push(function_behind(alloc, f, last)?)?;
    }
    Ok(behind)
}

/// A program behind a pass and those before it.
fn program_behind(alloc: Global, program: &VmProgram, last: CleaningPass) -> Result<VmProgram> {
    ensure!(is_small(program), "the program is too large");
    let functions = functions_behind(alloc, program.functions.as_slice(), last)?;
    let globals = copy_objects(alloc, program.globals.as_slice())?;
    program_of(functions, globals).context("the program is not lawful behind a pass")
}

/// Puts how a program runs, a line for each number of turns.
fn put_runs(shown: &mut Vec<u8>, alloc: Global, program: &VmProgram, asked: &Asked) -> Result<()> {
    for turns in &asked.turns {
        let taken = Vec::from_slice(alloc, asked.input.as_slice())?;
        let mut input = MemSource::new(taken, Vec::new(alloc));
        let mut out = MemSink::new(alloc, ROOM, Vec::new(alloc))?;
        let ending = run_vm(alloc, program, &mut input, &mut out, *turns);
        shown.extend_from_slice(format!(in alloc; "{ending:?}")?.as_bytes())?;
        if !out.taken_bytes().is_empty() {
            shown.extend_from_slice(b" out ")?;
            shown.extend_from_slice(out.taken_bytes())?;
        }
        shown.push(b'\n')?;
    }
    Ok(())
}

/// How the program of a row runs, and for each pass its text behind it, and how it runs then.
pub fn answer(alloc: Global, given: &str) -> Result<Vec<u8>> {
    let mut asked = Asked {
        input: Vec::new(alloc),
        turns: Vec::new(alloc),
        passes: Vec::new(alloc),
    };
    let mut reader = VmReader::new(alloc, names_of(alloc, given)?);
    for line in given.lines() {
        let (word, rest) = line.split_once(' ').unwrap_or((line, ""));
        if !asked.take(alloc, word, rest)? {
            reader.take(line)?;
        }
    }
    let program = reader.program()?;
    check_text(alloc, &program, given)?;
    let mut shown = Vec::new(alloc);
    put_runs(&mut shown, alloc, &program, &asked)?;
    for pass in &asked.passes {
        let behind = program_behind(alloc, &program, *pass)?;
        shown.extend_from_slice(vm_text(alloc, &behind)?.as_slice())?;
        put_runs(&mut shown, alloc, &behind, &asked)?;
    }
    Ok(shown)
}
