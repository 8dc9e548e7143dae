//! The text, the registers and the memory, and what a step does with them.

ghost use Rattle.std.specs.Prelude.{◌≡◌, ℕ, ◌+◌, ◌*◌, ◌<◌, ◌≤◌, ◌^◌, pos, ◌*ℤ◌, List, length, Option, Some, None, IfSome, slice_get, drop, IsSome, if◌then◌else◌};
ghost use Rattle.std.specs.Bool.{OnTrue};
ghost use Rattle.alpha_isa.specs.Program.{Program, most_words, instruction_at};
ghost use Rattle.alpha_isa.specs.Arithmetic.{word_at, word_from};
ghost use Rattle.alpha_isa.specs.Step.{is_branch_taken};
ghost use Rattle.alpha_run.specs.model.TakenWord.{taken_word};
ghost use Rattle.alpha_isa.specs.Step as step;
ghost use Rattle.alpha_isa.specs.Lawful.{AreLawfulFields, IsRegister, IsOperand};

use crate::arithmetic::{OperationResult, extend_long, operate};
use crate::ending::Halt;
use crate::memory::Memory;
use crate::registers::Registers;
use alpha_isa::insn::{BranchOp, Fields, Insn32, MemoryOp, Operand, OperateOp};
use alpha_isa::limits::TEXT_START;

/// The text, decoded, with the place in it, and the registers and memory that it works on.
#[derive(Debug, Drop)]
pub(crate) struct Processor {
    pub(crate) text: Vec<Option<Insn32>>,
    pub(crate) pc: u64,
    pub(crate) registers: Registers,
    pub(crate) memory: Memory,
}

/// What a step did, or what it waits for.
#[derive(Clone, Copy, Debug, PartialEq, Eq)]
pub(crate) enum StepResult {
    Goes,
    Over(Halt),
    /// A byte is to be put, before the step is done.
    Puts(u8),
    /// A byte is to be taken, before the step is done.
    Takes,
}

/// A displacement as a word.
fn bytes_on(disp: i16) -> u64
    ensures { result ≡ word_from disp }
{
    i64::from(disp).cast_unsigned()
}

/// A displacement of 65,536 times as much.
fn blocks_on(disp: i16) -> u64
    ensures { result ≡ word_from (disp *ℤ pos 65536) }
{
    (i64::from(disp) * 65_536).cast_unsigned()
}

/// A displacement of instructions.
fn instructions_on(disp: i32) -> u64
    ensures { result ≡ word_from (disp *ℤ pos 4) }
{
    (i64::from(disp) * 4).cast_unsigned()
}

/// The word of a byte that was taken, or -1 at the end of the input.
fn word_taken(byte: Option<u8>) -> u64
    ensures { result ≡ taken_word byte }
{
    match byte {
        Some(byte) => u64::from(byte),
        None => u64::MAX,
    }
}

/// The test that a branch makes of its register.
fn takes_branch(op: BranchOp, word: u64) -> bool
    ensures { result ≡ is_branch_taken op word }
{
    match op {
        BranchOp::Br | BranchOp::Bsr => true,
        BranchOp::Blbc => word % 2 == 0,
        BranchOp::Blbs => word % 2 == 1,
        BranchOp::Beq => word == 0,
        BranchOp::Bne => word != 0,
        BranchOp::Blt => word.cast_signed() < 0,
        BranchOp::Bge => word.cast_signed() >= 0,
        BranchOp::Ble => word.cast_signed() <= 0,
        BranchOp::Bgt => word.cast_signed() > 0,
    }
}

/// Whether a branch leaves the next address in its register.
fn links(op: BranchOp) -> bool
    ensures { result ≡ step.links op }
{
    matches!(op, BranchOp::Br | BranchOp::Bsr)
}

impl Processor {
    ghost use Rattle.alpha_isa.specs.State.{register, operand_value, with_register};
    ghost use Rattle.alpha_isa.specs.Step.{MachineNext, Goes, stuck_at, next_instruction, memory_step, branch_step, jump_step, operate_step, memory_address};
    ghost use Rattle.alpha_isa.specs.Arithmetic.{operation_effect};
    ghost use Rattle.alpha_run.specs.model.Turns.{Calls, Steps, waits, with_taken};
    ghost use Rattle.alpha_run.specs.model.ProcessorState.{processor_state, IsProcessorOf, IsShort, KeepsText, next_if_done, next_if_fits, next_with_word, advanced_if};

    /// The instruction at the place where the processor stands.
    fn fetch(&self) -> Option<Fields>
        requires { IsShort self.now }
        ensures value { (p : Program) → IsProcessorOf p self.now → result ≡ instruction_at p self.now.pc }
        ensures lawful { IfSome result (λ i. AreLawfulFields i) }
        ensures within { IsSome result → self.now.pc < 2 ^ 32 }
    {
        if self.pc < TEXT_START {
            return None;
        }
        let place = (self.pc - TEXT_START) / 4;
        if place >= self.text.len() as u64 {
            return None;
        }
        match self.text[place as usize] {
            Some(insn) => Some(insn.fields),
            None => None,
        }
    }

    /// A register plus a number.
    fn address(&self, rb: u8, number: u64) -> u64
        requires { rb < 32 }
        ensures { (x y : List ℕ) → result ≡ word_at (register (processor_state self.now x y) rb + number) }
    {
        self.registers.get(rb).wrapping_add(number)
    }

    /// Goes on with the next instruction.
    pub(crate) fn advance(&mut self)
        requires { self.old.pc < 2 ^ 32 }
        ensures step { (x y : List ℕ) →
            Goes (processor_state self.new x y) ≡ next_instruction (processor_state self.old x y) }
        ensures kept { KeepsText self.old self.new }
    {
        self.pc += 4;
    }

    /// Gives a word to a register, and goes on.
    fn give(&mut self, ra: u8, word: u64)
        requires register { ra < 32 }
        requires pc { self.old.pc < 2 ^ 32 }
        ensures step { (x y : List ℕ) →
            Goes (processor_state self.new x y)
            ≡ next_instruction (with_register ra word (processor_state self.old x y)) }
        ensures kept { KeepsText self.old self.new }
    {
        self.registers.set(ra, word);
        self.pc += 4;
    }

    /// Gives what was loaded to a register, and goes on.
    fn load(&mut self, ra: u8, word: Option<u64>) -> bool
        requires register { ra < 32 }
        requires pc { self.old.pc < 2 ^ 32 }
        ensures step { (x y : List ℕ) →
            next_if_done result (processor_state self.new x y) ≡ next_with_word ra word (processor_state self.old x y) }
        ensures kept { KeepsText self.old self.new }
    {
        match word {
            Some(word) => {
                self.give(ra, word);
                true
            }
            None => false,
        }
    }

    /// Goes on after a store, if it was done.
    fn finish_store(&mut self, done: bool) -> bool
        requires { self.old.pc < 2 ^ 32 }
        ensures step { (x y : List ℕ) →
            next_if_done result (processor_state self.new x y) ≡ advanced_if done (processor_state self.old x y) }
        ensures kept { KeepsText self.old self.new }
    {
        if done {
            self.advance();
        }
        done
    }

    /// A load, a store, or the computing of an address.
    fn memory_step(&mut self, op: MemoryOp, ra: u8, rb: u8, disp: i16) -> bool
        requires ra { ra < 32 }
        requires rb { rb < 32 }
        requires pc { self.old.pc < 2 ^ 32 }
        ensures step { (p : Program) (x y : List ℕ) → IsProcessorOf p self.old →
            next_if_done result (processor_state self.new x y)
            ≡ memory_step p op ra rb disp (processor_state self.old x y) }
        ensures kept { KeepsText self.old self.new }
    {
        let address = self.address(rb, bytes_on(disp));
        match op {
            MemoryOp::Lda => self.load(ra, Some(address)),
            MemoryOp::Ldah => {
                let high = self.address(rb, blocks_on(disp));
                self.load(ra, Some(high))
            }
            MemoryOp::Ldbu => {
                let word = self.memory.read_byte(address);
                self.load(ra, word)
            }
            MemoryOp::Ldwu => {
                let word = self.memory.read_short(address);
                self.load(ra, word)
            }
            MemoryOp::Ldl => {
                let word = self.memory.read_long(address);
                self.load(ra, word)
            }
            MemoryOp::Ldq => {
                let word = self.memory.read_quad(address);
                self.load(ra, word)
            }
            MemoryOp::Stb => {
                let done = self.memory.write_byte(address, self.registers.get(ra));
                self.finish_store(done)
            }
            MemoryOp::Stw => {
                let done = self.memory.write_short(address, self.registers.get(ra));
                self.finish_store(done)
            }
            MemoryOp::Stl => {
                let done = self.memory.write_long(address, self.registers.get(ra));
                self.finish_store(done)
            }
            MemoryOp::Stq => {
                let done = self.memory.write_quad(address, self.registers.get(ra));
                self.finish_store(done)
            }
        }
    }

    /// A branch, whose test is made before its register is written.
    fn branch_step(&mut self, op: BranchOp, ra: u8, disp: i32)
        requires ra { ra < 32 }
        requires pc { self.old.pc < 2 ^ 32 }
        ensures step { (x y : List ℕ) →
            Goes (processor_state self.new x y) ≡ branch_step op ra disp (processor_state self.old x y) }
        ensures kept { KeepsText self.old self.new }
    {
        let next = self.pc + 4;
        let target = if takes_branch(op, self.registers.get(ra)) {
            next.wrapping_add(instructions_on(disp))
        } else {
            next
        };
        if links(op) {
            self.registers.set(ra, next);
        }
        self.pc = target;
    }

    /// A jump, whose target is read before its register is written.
    fn jump_step(&mut self, ra: u8, rb: u8)
        requires ra { ra < 32 }
        requires rb { rb < 32 }
        requires pc { self.old.pc < 2 ^ 32 }
        ensures step { (x y : List ℕ) →
            Goes (processor_state self.new x y) ≡ jump_step ra rb (processor_state self.old x y) }
        ensures kept { KeepsText self.old self.new }
    {
        let target = self.registers.get(rb) / 4 * 4;
        self.registers.set(ra, self.pc + 4);
        self.pc = target;
    }

    /// The word of a second operand.
    fn operand(&self, rb: Operand) -> u64
        requires { IsOperand rb }
        ensures { (x y : List ℕ) → result ≡ operand_value (processor_state self.now x y) rb }
    {
        match rb {
            Operand::Reg(register) => self.registers.get(register),
            Operand::Literal(literal) => u64::from(literal),
        }
    }

    /// An operation. It answers whether its result fits.
    fn operate_step(&mut self, op: OperateOp, ra: u8, rb: Operand, rc: u8) -> bool
        requires ra { ra < 32 }
        requires rb { IsOperand rb }
        requires rc { rc < 32 }
        requires pc { self.old.pc < 2 ^ 32 }
        ensures step { (x y : List ℕ) →
            next_if_fits result (processor_state self.new x y) ≡ operate_step
            (operation_effect op
            (register (processor_state self.old x y) ra) (operand_value (processor_state self.old x y) rb))
            rc (processor_state self.old x y) }
        ensures kept { KeepsText self.old self.new }
    {
        match operate(op, self.registers.get(ra), self.operand(rb)) {
            OperationResult::Gives(word) => {
                self.give(rc, word);
                true
            }
            OperationResult::Keeps => {
                self.advance();
                true
            }
            OperationResult::Overflows => false,
        }
    }

    /// A call of privileged code.
    fn call(&self, function: u32) -> StepResult
        ensures { (x y : List ℕ) → Calls function (processor_state self.now x y) result }
    {
        match (function, self.registers.get(0)) {
            (0xaa, _) => StepResult::Over(Halt::Trap {
                code: self.registers.get(16),
            }),
            (0x83, 1) => StepResult::Over(Halt::Done {
                status: (self.registers.get(16) % 256) as u8,
            }),
            (0x83, 2) => StepResult::Puts((self.registers.get(16) % 256) as u8),
            (0x83, 3) => StepResult::Takes,
            _ => StepResult::Over(Halt::Stuck { pc: self.pc }),
        }
    }

    /// Goes on with a byte that was taken, or with -1 at the end of the input.
    pub(crate) fn resume_with(&mut self, byte: Option<u8>)
        requires { self.old.pc < 2 ^ 32 }
        ensures step { (x y : List ℕ) → byte ≡ slice_get x 0 →
            Goes (processor_state self.new (drop 1 x) y)
            ≡ next_instruction (with_taken (processor_state self.old x y)) }
        ensures kept { KeepsText self.old self.new }
    {
        self.give(0, word_taken(byte));
    }

    /// A step, up to what it has to wait for.
    pub(crate) fn step(&mut self) -> StepResult
        requires { IsShort self.old }
        ensures within { OnTrue (waits result) (self.new.pc < 2 ^ 32) }
        ensures step { (p : Program) (x y : List ℕ) → IsProcessorOf p self.old →
            Steps p result (processor_state self.old x y) (processor_state self.new x y) }
        ensures kept { KeepsText self.old self.new }
    {
        match self.fetch() {
            None => StepResult::Over(Halt::Stuck { pc: self.pc }),
            Some(Fields::Memory { op, ra, rb, disp }) => {
                if self.memory_step(op, ra, rb, disp) {
                    StepResult::Goes
                } else {
                    StepResult::Over(Halt::Stuck { pc: self.pc })
                }
            }
            Some(Fields::Branch { op, ra, disp }) => {
                self.branch_step(op, ra, disp);
                StepResult::Goes
            }
            Some(Fields::Jump { ra, rb, .. }) => {
                self.jump_step(ra, rb);
                StepResult::Goes
            }
            Some(Fields::Operate { op, ra, rb, rc }) => {
                if self.operate_step(op, ra, rb, rc) {
                    StepResult::Goes
                } else {
                    StepResult::Over(Halt::Trap { code: 3 })
                }
            }
            Some(Fields::Pal { function }) => self.call(function),
        }
    }
}
