//! The machine: an image is loaded into it, and it runs.

ghost use Rattle.std.specs.Prelude.{◌≡◌, ℕ, ◌+◌, ◌*◌, ◌/◌, ◌<◌, ◌≤◌, ◌^◌, List, map, length, replicate, [], IfOk, OnOk, IfSome, IsTrue, Option, Some, None, unwrap_or};
ghost use Rattle.alpha_isa.specs.Words.{insn_of};
ghost use Rattle.alpha_isa.specs.Program.{Program, image_data_size, most_bytes, next_part};
ghost use Rattle.alpha_isa.specs.Program as spec;
ghost use Rattle.alpha_isa.specs.Behave.{IsStack, start_state};

use crate::ending::{Ending, Halt};
use crate::memory::Memory;
use crate::processor::{Processor, StepResult};
use crate::registers::Registers;
use alpha_isa::decode::decode;
use alpha_isa::image::Image;
use alpha_isa::insn::Insn32;
use alpha_isa::limits::TEXT_START;
use bk_io::outside::{Sink, Source, ask};
use std::alloc::{AllocError, Global};
use std::marker::Model;

/// The register that holds the end of the stack when a run begins.
const STACK_POINTER: u8 = 30;

/// A machine with a program in it. Contracts see it as the state of a step, with the text that was
/// decoded, the counts of its steps and bytes, and how it ended, if it did.
#[derive(Debug, Drop)]
pub struct Machine {
    processor: Processor,
    steps: u64,
    written: u64,
    halt: Option<Halt>,
}

impl Model for Machine {
    ghost use Rattle.alpha_run.specs.Snapshot.{Snapshot};

    ghost Value = { Snapshot };

    ghost use Rattle.alpha_run.specs.Inside.{snapshot_of, InsideIsSound};

    ghost view = { snapshot_of };

    ghost invariant = { InsideIsSound };
}

/// The first multiple of 65,536 that is not below an address.
fn part_from(address: u64) -> u64
    requires { address < 2 ^ 32 }
    ensures { result ≡ next_part address }
{
    (address + 65_535) / 65_536 * 65_536
}

/// The bytes of an image's data, with its zeros.
fn data_of(alloc: Global, image: &Image) -> Result<Vec<u8>, AllocError>
    ensures bytes { IfOk result (λ bytes. bytes.items ≡ spec.data_of image.now) }
    ensures size { IfOk result (λ bytes. length bytes.items ≡ image_data_size image.now) }
    ensures few { OnOk result (image_data_size image.now ≤ most_bytes) }
{
    let mut data = Vec::with_capacity(alloc, image.bytes.len() + image.zeros as usize)?;
    data.extend_from_slice(image.bytes.as_slice())?;
    data.resize(image.bytes.len() + image.zeros as usize, 0)?;
    Ok(data)
}

/// The instructions of the words, none where a word stands for none.
fn decode_all(alloc: Global, words: &[u32]) -> Result<Vec<Option<Insn32>>, AllocError>
    ensures { IfOk result (λ text. text.items ≡ map insn_of words.now) }
{
    words.iter().map(|word| decode(*word)).collect(alloc)
}

impl Machine {
    ghost use Rattle.alpha_run.specs.Snapshot.{first_snapshot, snapshot_state, IsMachineOf};
    ghost use Rattle.alpha_run.specs.Ending.{halt_ending};
    ghost use Rattle.alpha_run.specs.model.Stop.{stops_early};
    ghost use Rattle.alpha_run.specs.model.MachineTurns.{TurnsOn};
    ghost use Rattle.alpha_run.specs.Run.{RunsOn, BehavesOn, halt_of, input_faults_after, output_faults_after};
    ghost use Rattle.bk_io.specs.Outside.{traffic_of, OnInput};

    /// A machine with an image in it, and a stack of so many bytes, from 4,096 to 268,435,456 of them
    /// and a multiple of 16. It takes all the memory that its runs need.
    pub fn load(alloc: Global, image: &Image, stack: u64) -> Result<Machine, AllocError>
        requires { IsStack stack }
        ensures first_snapshot { IfOk result (λ m. m ≡ first_snapshot image.now stack) }
        ensures starts { IfOk result (λ m. (bytes : List ℕ) → snapshot_state m bytes [] ≡ start_state image.now stack bytes) }
        ensures runs { IfOk result (λ m. IsMachineOf image.now m) }
    {
        let text = decode_all(alloc, image.words.as_slice())?;
        let data = data_of(alloc, image)?;
        let data_start = part_from(TEXT_START + 4 * text.len() as u64);
        let stack_start = part_from(data_start + data.len() as u64);
        let mut registers = Registers::new();
        registers.set(STACK_POINTER, stack_start + stack);
        Ok(Machine {
            processor: Processor {
                text,
                pc: TEXT_START + 4 * u64::from(image.entry),
                registers,
                memory: Memory {
                    data_start,
                    data,
                    stack_start,
                    stack: vec![in alloc; 0; stack as usize]?,
                },
            },
            steps: 0,
            written: 0,
            halt: None,
        })
    }

    /// Runs at most `budget` steps. A machine whose program came to its end answers that end again.
    ///
    /// `Budget` comes exactly where the machine still runs after so many steps. The input is asked once for
    /// each byte that a step takes, the one that failed included, and at no other time. What a run does is said of the
    /// bytes that the input gave, with whatever it may still give behind them: where it tells what is left, that is
    /// what was left, and where it tells nothing there is such an input.
    pub fn run<I: Source, O: Sink>(&mut self, budget: u64, input: &mut I, out: &mut O) -> Ending
        ensures run { OnInput (I.left input.old) (I.left input.new) (RunsOn budget result self.old self.new
            (traffic_of I.left I.made O.taken input.old out.old)
            (traffic_of I.left I.made O.taken input.new out.new)) }
        // a run of a machine that was just loaded is the behaviour of its image
        ensures behaves { OnInput (I.left input.old) (I.left input.new) (BehavesOn budget result self.old
            (traffic_of I.left I.made O.taken input.old out.old)
            (traffic_of I.left I.made O.taken input.new out.new)) }
        ensures again { IfSome self.old.halt (λ h. (result ≡ halt_ending h) × (self.new ≡ self.old) ×
            (input.new ≡ input.old) × (out.new ≡ out.old)) }
        ensures halt { self.new.halt ≡ halt_of result }
        ensures program { (p : Program) → IsMachineOf p self.old → IsMachineOf p self.new }
        ensures input_count { I.faults input.new ≡ input_faults_after result (I.faults input.old) }
        ensures output_count { O.faults out.new ≡ output_faults_after result (O.faults out.old) }
    {
        if let Some(halt) = self.halt {
            return halt.ending();
        }
        for _done in 0..budget {
            if let Some(ending) = self.turn(input, out) {
                return ending;
            }
        }
        Ending::Budget
    }

    /// One step. It answers why the machine stops, where it does.
    fn turn<I: Source, O: Sink>(&mut self, input: &mut I, out: &mut O) -> Option<Ending>
        ensures run { OnInput (I.left input.old) (I.left input.new) (TurnsOn (unwrap_or result Ending.Budget)
            self.old self.new (traffic_of I.left I.made O.taken input.old out.old)
            (traffic_of I.left I.made O.taken input.new out.new)) }
        ensures halt { self.old.halt ≡ None → self.new.halt ≡ halt_of (unwrap_or result Ending.Budget) }
        ensures early { IfSome result (λ e. IsTrue (stops_early e)) }
        ensures program { (p : Program) → IsMachineOf p self.old → IsMachineOf p self.new }
        ensures input_count { I.faults input.new
            ≡ input_faults_after (unwrap_or result Ending.Budget) (I.faults input.old) }
        ensures output_count { O.faults out.new
            ≡ output_faults_after (unwrap_or result Ending.Budget) (O.faults out.old) }
    {
        match self.processor.step() {
            StepResult::Goes => {
                self.steps = self.steps.saturating_add(1);
                None
            }
            StepResult::Over(halt) => {
                self.steps = self.steps.saturating_add(halt.steps());
                self.halt = Some(halt);
                Some(halt.ending())
            }
            StepResult::Puts(byte) => {
                if out.put(byte).is_err() {
                    return Some(Ending::WriteFault);
                }
                self.processor.advance();
                self.steps = self.steps.saturating_add(1);
                self.written = self.written.saturating_add(1);
                None
            }
            StepResult::Takes => {
                let Ok(byte) = ask(input, out) else {
                    return Some(Ending::InputFault);
                };
                self.processor.resume_with(byte);
                self.steps = self.steps.saturating_add(1);
                None
            }
        }
    }

    /// The steps that were done since the machine was loaded. The count stays at 2^64 - 1.
    pub fn steps(&self) -> u64
        ensures { result ≡ self.now.steps }
    {
        self.steps
    }

    /// The bytes that were put since the machine was loaded. The count stays at 2^64 - 1.
    pub fn written(&self) -> u64
        ensures { result ≡ self.now.written }
    {
        self.written
    }
}
