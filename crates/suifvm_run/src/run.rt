//! Runs of programs, with what they ask of the outside.

ghost use Rattle.std.specs.Prelude.{◌≡◌, ◌<◌, length, position, Some, IfSome, unwrap_or};
ghost use Rattle.suifvm_ir.specs.Programs as programs;
ghost use Rattle.suifvm_run.specs.Run.{VmBehavesOn, input_faults_after, output_faults_after};
ghost use Rattle.bk_io.specs.Outside.{OnInput, traffic_of};
ghost use Rattle.suifvm_machine.specs.Config as config;
ghost use Rattle.suifvm_run.specs.model.Falls.{AreMarked};
ghost use Rattle.suifvm_run.specs.model.Progress as progress;
ghost use Rattle.suifvm_machine.specs.Tables.{FunctionsAreNumbered, program_code};
ghost use Rattle.suifvm_meaning.specs.Behave.{main_of};
ghost use Rattle.suifvm_meaning.specs.Effect as effect;
ghost use Rattle.suifvm_operations.specs.Tidy.{MemoryIsTidy};

use crate::ending::VmEnding;
use crate::quick::quick_step;
use bk_io::outside::{Sink, Source, ask};
use bk_memory::memory_is_short;
use mem_model::memory::Mem;
use mem_model::value::Value;
use pass_core::function::Func;
use std::alloc::Global;
use suifvm_ir::insn::VmInsn;
use suifvm_ir::program::VmProgram;
use suifvm_machine::beginning::begin;
use suifvm_machine::indexing::program_table;
use suifvm_machine::machine::{Machine, StartError, StepResult, Stop};
use suifvm_machine::tables::ProgramTable;
use suifvm_operations::start::start_memory;

/// The ending of a run that had so many turns.
fn ending_of(stop: Stop, turns: u64) -> VmEnding
    ensures { result ≡ progress.stop_ending turns stop }
{
    match stop {
        Stop::Exits(status) => VmEnding::Ended { status },
        Stop::Traps(code) => VmEnding::Trapped { code },
        Stop::Undefined(pc) => VmEnding::Undefined { pc },
        Stop::Budget => VmEnding::Budget { turns },
    }
}

/// The word of a byte of the input, or of -1 at its end.
fn word_of(byte: Option<u8>) -> u64
    ensures { result ≡ effect.input_word byte }
{
    match byte {
        Some(byte) => u64::from(byte),
        None => u64::MAX,
    }
}

/// One step, whatever it is, with what it asks of the outside.
#[inline(never)]
fn slow_step<I: Source, O: Sink>(
    machine: &mut Machine<'_, '_>,
    turns: u64,
    input: &mut I,
    out: &mut O,
) -> Option<VmEnding>
    requires sound { config.IsSound machine.old }
    requires marked { AreMarked (config.program_of machine.old) }
    ensures follows { progress.StepFollows machine.old machine.new turns
        (traffic_of I.left I.made O.taken input.old out.old)
        (traffic_of I.left I.made O.taken input.new out.new) result }
    ensures input_count { I.faults input.new
        ≡ input_faults_after (unwrap_or result VmEnding.NoMemory) (I.faults input.old) }
    ensures output_count { O.faults out.new
        ≡ output_faults_after (unwrap_or result VmEnding.NoMemory) (O.faults out.old) }
{
    match machine.step() {
        StepResult::Goes => None,
        StepResult::Over(stop) => Some(ending_of(stop, turns)),
        StepResult::Puts(byte) => match out.put(byte) {
            Ok(()) => None,
            Err(_) => Some(VmEnding::WriteFault),
        },
        StepResult::Takes(destination) => match ask(input, out) {
            Err(_) => Some(VmEnding::InputFault),
            Ok(byte) => match machine.write(destination, Value::Word(word_of(byte))) {
                Ok(()) => None,
                Err(error) => {
                    memory_is_short(error);
                    Some(VmEnding::NoMemory)
                }
            },
        },
        StepResult::NoMemory => Some(VmEnding::NoMemory),
    }
}

/// One step, with what it asks of the outside. It answers how a run that had so many turns stops, where it does.
#[inline(always)]
fn step<I: Source, O: Sink>(
    machine: &mut Machine<'_, '_>,
    turns: u64,
    input: &mut I,
    out: &mut O,
) -> Option<VmEnding>
    requires sound { config.IsSound machine.old }
    requires marked { AreMarked (config.program_of machine.old) }
    ensures follows { progress.StepFollows machine.old machine.new turns
        (traffic_of I.left I.made O.taken input.old out.old)
        (traffic_of I.left I.made O.taken input.new out.new) result }
    ensures input_count { I.faults input.new
        ≡ input_faults_after (unwrap_or result VmEnding.NoMemory) (I.faults input.old) }
    ensures output_count { O.faults out.new
        ≡ output_faults_after (unwrap_or result VmEnding.NoMemory) (O.faults out.old) }
{
    if quick_step(machine) {
        None
    } else {
        slow_step(machine, turns, input, out)
    }
}

/// Runs until the run stops, which had so many turns. It does, since a jump that goes back takes a turn.
pub(crate) fn run_machine<I: Source, O: Sink>(
    machine: &mut Machine<'_, '_>,
    turns: u64,
    input: &mut I,
    out: &mut O,
) -> VmEnding
    requires sound { config.IsSound machine.old }
    requires marked { AreMarked (config.program_of machine.old) }
    ensures run { OnInput (I.left input.old) (I.left input.new) (progress.LeadsOn machine.old machine.new turns
        (traffic_of I.left I.made O.taken input.old out.old)
        (traffic_of I.left I.made O.taken input.new out.new) (Some result)) }
    ensures input_count { I.faults input.new ≡ input_faults_after result (I.faults input.old) }
    ensures output_count { O.faults out.new ≡ output_faults_after result (O.faults out.old) }
{
    loop {
        if let Some(ending) = step(machine, turns, input, out) {
            return ending;
        }
    }
}

/// Whether a function is the one where a program begins.
fn is_main(function: &Func<VmInsn>) -> bool
    ensures { result ≡ programs.is_main function.now }
{
    function.name.as_slice() == b"main".as_slice()
}

/// The place of the function `main`.
fn main_place(functions: &[Func<VmInsn>]) -> Option<usize>
    ensures place { result ≡ position programs.is_main functions.now }
    ensures within { IfSome result (λ at. at < length functions.now) }
{
    functions.iter().position(|function| is_main(function))
}

/// The number of the function `main`.
fn main_number(program: &VmProgram) -> u32
    ensures { result ≡ main_of program.now.functions }
{
    match main_place(program.functions.as_slice()) {
        Some(number) => number as u32,
        None => 0,
    }
}

/// Runs the function with a number, which takes no arguments, in a memory in which so many objects were made.
fn run_table<I: Source, O: Sink>(
    alloc: Global,
    table: &ProgramTable<'_>,
    main: u32,
    memory: Mem,
    made: u64,
    input: &mut I,
    out: &mut O,
    turns: u64,
) -> VmEnding
    requires tidy { MemoryIsTidy memory }
    requires made { made ≡ length memory }
    requires numbers { FunctionsAreNumbered 0 table.now.functions.items table.now.end }
    requires marked { AreMarked (program_code table.now) }
    ensures run { OnInput (I.left input.old) (I.left input.new)
        (progress.TableRunsOn table.now main memory turns result
        (traffic_of I.left I.made O.taken input.old out.old)
        (traffic_of I.left I.made O.taken input.new out.new)) }
    ensures input_count { I.faults input.new ≡ input_faults_after result (I.faults input.old) }
    ensures output_count { O.faults out.new ≡ output_faults_after result (O.faults out.old) }
{
    match begin(alloc, table, main, memory, made, turns) {
        Ok(begun) => {
            let mut machine = begun;
            run_machine(&mut machine, turns, input, out)
        }
        Err(StartError::Over(stop)) => ending_of(stop, turns),
        Err(StartError::NoMemory) => VmEnding::NoMemory,
    }
}

/// Runs a program with so many turns, on the input, to the output.
///
/// `Ended`, `Trapped` and `Undefined` are the ending that the meaning of the program has on the input with so many
/// turns, whatever the rooms of its functions are, and `Budget` is its want of a turn. The input is the bytes that were
/// taken, with whatever may still be given behind them: what was left, where that is told, and else there is such an
/// input. `InputFault` and `WriteFault`
/// come where the input or the output failed, before the step that asked for it. The input is asked once for each
/// call of `getchar`. `NoMemory` comes only where memory is short.
pub fn run_vm<I: Source, O: Sink>(
    alloc: Global,
    program: &VmProgram,
    input: &mut I,
    out: &mut O,
    turns: u64,
) -> VmEnding
    ensures run { OnInput (I.left input.old) (I.left input.new) (VmBehavesOn program.now turns result
        (traffic_of I.left I.made O.taken input.old out.old)
        (traffic_of I.left I.made O.taken input.new out.new)) }
    ensures input_count { I.faults input.new ≡ input_faults_after result (I.faults input.old) }
    ensures output_count { O.faults out.new ≡ output_faults_after result (O.faults out.old) }
{
    let table = match program_table(alloc, program) {
        Ok(table) => table,
        Err(error) => {
            memory_is_short(error);
            return VmEnding::NoMemory;
        }
    };
    let memory = match start_memory(alloc, program.globals.as_slice()) {
        Ok(memory) => memory,
        Err(error) => {
            memory_is_short(error);
            return VmEnding::NoMemory;
        }
    };
    let main = main_number(program);
    let made = program.globals.len() as u64;
    run_table(alloc, &table, main, memory, made, input, out, turns)
}
