//! Runs of programs, instruction by instruction.

use crate::flat::Flat;
use crate::frame::{CallContent, CallFrame, CallPlace};
use crate::memory::{Memory, UNWRITTEN};
use crate::operation::{OperationOutcome, divide, extend, low, operate, passes};
use alloc_model::allocation::Allocation;
use anyhow::{Context, Result, bail};
use mem_objects::{DataCell, DataObject};
use pass_core::Insn;
use std::alloc::Global;
use suifvm_ir::insn as vm;
use temp_ir::insn::{FirstOperand, FixedRegister, SecondOperand, TempInsn};
use temp_ir::operation::{AddressOp, LoadOp, Service, StoreOp};

/// The most instructions of a run.
const MOST: u32 = 1_000_000;

/// How a run ends.
#[derive(Clone, Copy, Debug)]
pub enum TempEnding {
    Done(u64),
    Trap(u64),
    Undefined,
    More,
}

/// What comes of an instruction.
#[derive(Clone, Copy, Debug)]
enum Act {
    /// It goes on.
    Next,
    Jump(u32),
    Call { function: u32, arguments: u32 },
    Return { with_value: bool },
    Stop(TempEnding),
}

/// A run of the functions of some allocations.
#[derive(Drop)]
pub struct TempMachine<'a> {
    alloc: Global,
    functions: &'a [Allocation],
    code: Vec<Flat>,
    /// Whether it runs over registers and slots.
    is_placed: bool,
    turns: u64,
    input: Vec<u8>,
    taken: usize,
    pub output: Vec<u8>,
    memory: Memory,
    /// The places of the objects of static storage.
    globals: Vec<u64>,
    callers: Vec<CallFrame>,
    frame: CallFrame,
}

/// The place of the argument with a number, where it is given and where it is found.
fn argument_place(number: u32, is_given: bool) -> CallPlace {
    if number < 6 {
        return CallPlace::Register((16 + number) as u8);
    }
    if is_given {
        CallPlace::Outgoing(number - 6)
    } else {
        CallPlace::Incoming(number - 6)
    }
}

/// The number of the function where a program begins.
fn main_of(functions: &[Allocation]) -> u32 {
    let mut number = 0_u32;
    for function in functions {
        if function.func.name.as_slice() == b"main".as_slice() {
            return number;
        }
        number = number.wrapping_add(1);
    }
    0
}

/// Makes the objects of static storage, and answers their places.
fn place_globals(alloc: Global, memory: &mut Memory, globals: &[DataObject]) -> Result<Vec<u64>> {
    let mut places = Vec::new(alloc);
    for object in globals {
        places.push(memory.begin_object(object.size, 0)?)?;
    }
    Ok(places)
}

/// The byte that a cell of an object of static storage is.
fn byte_of(places: &[u64], cell: DataCell) -> Result<u64> {
    match cell {
        DataCell::Byte(byte) => Ok(u64::from(byte)),
        DataCell::AddressPart { global, plus, part } => {
            let place = places
                .get(global as usize)
                .copied()
                .context("no such object")?;
            Ok(place.wrapping_add(plus) >> (8 * u64::from(part % 8)))
        }
    }
}

/// Puts the cells of an object of static storage, which holds zeros so far.
fn fill_object(memory: &mut Memory, places: &[u64], place: u64, object: &DataObject) -> Result<()> {
    let mut at = place;
    for cell in object.cells.as_slice() {
        let byte = byte_of(places, *cell)?;
        memory
            .store(at, 1, byte)
            .context("an object is not in memory")?;
        at = at.wrapping_add(1);
    }
    Ok(())
}

/// Puts what the objects of static storage hold at the start.
fn fill_globals(memory: &mut Memory, places: &[u64], globals: &[DataObject]) -> Result<()> {
    for (place, object) in places.iter().zip(globals.iter()) {
        fill_object(memory, places, *place, object)?;
    }
    Ok(())
}

/// The bytes that a load reads.
fn load_width(op: LoadOp) -> u64 {
    match op {
        LoadOp::Ldbu => 1,
        LoadOp::Ldwu => 2,
        LoadOp::Ldl => 4,
        LoadOp::Ldq => 8,
    }
}

/// The bytes that a store writes.
fn store_width(op: StoreOp) -> u64 {
    match op {
        StoreOp::Stb => 1,
        StoreOp::Stw => 2,
        StoreOp::Stl => 4,
        StoreOp::Stq => 8,
    }
}

/// A word moved by a displacement.
fn moved_word(word: u64, plus: i16) -> u64 {
    word.wrapping_add(i64::from(plus).cast_unsigned())
}

impl<'a> TempMachine<'a> {
    /// A run from `main` of some functions, or from the first of them where none has that name, with some objects of
    /// static storage, that takes so many turns.
    pub fn new(
        alloc: Global,
        functions: &'a [Allocation],
        globals: &[DataObject],
        is_placed: bool,
        input: Vec<u8>,
        turns: u64,
    ) -> Result<TempMachine<'a>> {
        let mut memory = Memory::new(alloc);
        let places = place_globals(alloc, &mut memory, globals)?;
        fill_globals(&mut memory, places.as_slice(), globals)?;
        let base = memory.end();
        let mut code = Vec::new(alloc);
        for function in functions {
            code.push(Flat::of(alloc, &function.func)?)?;
        }
        let mut machine = TempMachine {
            alloc,
            functions,
            code,
            is_placed,
            turns,
            input,
            taken: 0,
            output: Vec::new(alloc),
            memory,
            globals: places,
            callers: Vec::new(alloc),
            frame: CallFrame::new(alloc, main_of(functions), base),
        };
        machine.begin_objects()?;
        Ok(machine)
    }

    /// Makes the objects of the call that runs.
    fn begin_objects(&mut self) -> Result<()> {
        let function = self.function()?;
        for object in function.func.objects.as_slice() {
            let place = self.memory.begin_object(object.size, UNWRITTEN)?;
            self.frame.objects.push(place)?;
        }
        Ok(())
    }

    /// The allocation of the function that runs.
    fn function(&self) -> Result<&'a Allocation> {
        let functions: &'a [Allocation] = self.functions;
        functions
            .get(self.frame.function as usize)
            .context("no such function")
    }

    /// The instructions of the function that runs.
    fn flat(&self) -> Result<&Flat> {
        self.code
            .get(self.frame.function as usize)
            .context("no such function")
    }

    /// The instruction that comes, or none behind the last one of a block.
    fn insn(&self) -> Result<Option<TempInsn>> {
        self.flat()?.insn(self.frame.block, self.frame.at)
    }

    /// The number of the instruction that comes, in linear order.
    fn number(&self) -> Result<usize> {
        self.flat()?.number(self.frame.block, self.frame.at)
    }

    /// Does the transfers before an instruction.
    fn move_before(&mut self, number: usize) -> Result<()> {
        let function = self.function()?;
        if let Some(transfers) = function.at.as_slice().get(number) {
            for transfer in transfers.as_slice() {
                self.frame.move_by(*transfer)?;
            }
        }
        Ok(())
    }

    /// Goes to a block, and does the transfers of the edge.
    fn go_to(&mut self, block: u32) -> Result<()> {
        let function = self.function()?;
        if self.is_placed {
            for edge in function.edges.as_slice() {
                if edge.from == self.frame.block && edge.to == block {
                    for transfer in edge.code.as_slice() {
                        self.frame.move_by(*transfer)?;
                    }
                    break;
                }
            }
        }
        self.frame.block = block;
        self.frame.at = 0;
        Ok(())
    }

    /// Where the temporary stands that an instruction reads or writes as one with a number.
    fn place_of(&self, number: usize, k: usize, temp: u32) -> Result<CallPlace> {
        if !self.is_placed {
            return Ok(CallPlace::Temp(temp));
        }
        let registers = self
            .function()?
            .regs
            .as_slice()
            .get(number)
            .context("no registers are stated")?;
        let register = registers
            .as_slice()
            .get(k)
            .context("a register is missing")?;
        Ok(CallPlace::Register(*register))
    }

    /// What the temporary holds that an instruction reads as one with a number, if it reads so many.
    fn read(&self, number: usize, insn: &TempInsn, k: u32) -> Result<CallContent> {
        match insn.read_at(k) {
            None => Ok(None),
            Some(temp) => Ok(self.frame.get(self.place_of(number, k as usize, temp)?)),
        }
    }

    /// What a first operand is.
    fn first_operand(
        &self,
        number: usize,
        insn: &TempInsn,
        source: FirstOperand,
    ) -> Result<CallContent> {
        match source {
            FirstOperand::Zero => Ok(Some(0)),
            FirstOperand::Temp(_) => self.read(number, insn, 0),
        }
    }

    /// What a second operand is.
    fn second_operand(
        &self,
        number: usize,
        insn: &TempInsn,
        left: FirstOperand,
        operand: SecondOperand,
    ) -> Result<CallContent> {
        match (operand, left) {
            (SecondOperand::Literal(word), _) => Ok(Some(u64::from(word))),
            (SecondOperand::Temp(_), FirstOperand::Zero) => self.read(number, insn, 0),
            (SecondOperand::Temp(_), FirstOperand::Temp(_)) => self.read(number, insn, 1),
        }
    }

    /// What a register holds.
    fn register(&self, register: FixedRegister) -> CallContent {
        self.frame.get(CallPlace::Register(register.number()))
    }
}

impl TempMachine<'_> {
    /// Writes what an instruction comes to into the temporary that it writes.
    fn write(&mut self, number: usize, insn: &TempInsn, content: CallContent) -> Result<()> {
        let mut reads = 0_usize;
        for k in 0..3 {
            if insn.read_at(k).is_some() {
                reads = reads.saturating_add(1);
            }
        }
        let temp = insn.write_at(0).context("nothing is written")?;
        let place = self.place_of(number, reads, temp)?;
        self.frame.put(place, content)
    }

    /// Writes a word, or what else comes of a computation.
    fn give(&mut self, number: usize, insn: &TempInsn, word: CallContent) -> Result<Act> {
        if word.is_none() {
            return Ok(Act::Stop(TempEnding::Undefined));
        }
        self.write(number, insn, word)?;
        Ok(Act::Next)
    }

    /// Writes what comes of an operation.
    fn give_outcome(
        &mut self,
        number: usize,
        insn: &TempInsn,
        outcome: OperationOutcome,
    ) -> Result<Act> {
        match outcome {
            OperationOutcome::Word(word) => self.give(number, insn, Some(word)),
            OperationOutcome::Trap(code) => Ok(Act::Stop(TempEnding::Trap(code))),
        }
    }

    /// Takes a turn, if there is one.
    fn take_turn(&mut self) -> bool {
        if self.turns == 0 {
            return false;
        }
        self.turns -= 1;
        true
    }

    /// Asks the machine for a service.
    fn serve(&mut self, service: Service) -> Result<Act> {
        let asked = self.register(FixedRegister::Value);
        let argument = self.register(FixedRegister::Argument0);
        match (service, asked, argument) {
            (Service::End, Some(1), Some(word)) => Ok(Act::Stop(TempEnding::Done(word % 256))),
            (Service::PutByte, Some(2), Some(word)) => {
                self.output.push((word % 256) as u8)?;
                Ok(Act::Next)
            }
            (Service::GetByte, Some(3), _) => {
                let word = match self.input.get(self.taken) {
                    None => u64::MAX,
                    Some(byte) => u64::from(*byte),
                };
                self.taken = self.taken.saturating_add(1);
                self.frame.put(CallPlace::Register(0), Some(word))?;
                Ok(Act::Next)
            }
            (Service::Trap, _, Some(word)) => Ok(Act::Stop(TempEnding::Trap(word))),
            _ => Ok(Act::Stop(TempEnding::Undefined)),
        }
    }

    /// Divides what stands in registers 24 and 25.
    fn divide(&mut self, insn: &TempInsn) -> Result<Act> {
        let TempInsn::Divide { routine } = insn else {
            bail!("no division");
        };
        let operands = (
            self.register(FixedRegister::Dividend),
            self.register(FixedRegister::Divisor),
        );
        let (Some(a), Some(b)) = operands else {
            return Ok(Act::Stop(TempEnding::Undefined));
        };
        match divide(*routine, a, b)? {
            OperationOutcome::Trap(code) => Ok(Act::Stop(TempEnding::Trap(code))),
            OperationOutcome::Word(word) => {
                self.frame.end(insn, self.is_placed);
                self.frame.put(CallPlace::Register(27), Some(word))?;
                Ok(Act::Next)
            }
        }
    }

    /// The address of an object, moved by so many bytes.
    fn object_address(&self, place: vm::VmObject, plus: u64) -> Result<u64> {
        let found = match place {
            vm::VmObject::Global(k) => self.globals.get(k as usize),
            vm::VmObject::Local(k) => self.frame.objects.get(k as usize),
        };
        Ok(found.copied().context("no such object")?.wrapping_add(plus))
    }

    /// Loads what stands at a pointer.
    fn load(&mut self, number: usize, insn: &TempInsn, op: LoadOp, plus: i16) -> Result<Act> {
        let pointer = self.read(number, insn, 0)?;
        let found = match pointer {
            None => None,
            Some(word) => self.memory.load(moved_word(word, plus), load_width(op)),
        };
        let word = match op {
            LoadOp::Ldl => found.map(|word| i64::from(low(word)).cast_unsigned()),
            _ => found,
        };
        self.give(number, insn, word)
    }

    /// Stores a word at a pointer.
    fn store(&mut self, number: usize, insn: &TempInsn) -> Result<Act> {
        let TempInsn::Store {
            op,
            value,
            plus,
            ..
        } = insn
        else {
            bail!("no store");
        };
        let word = self.first_operand(number, insn, *value)?;
        let pointer = match value {
            FirstOperand::Zero => self.read(number, insn, 0)?,
            FirstOperand::Temp(_) => self.read(number, insn, 1)?,
        };
        let (Some(word), Some(pointer)) = (word, pointer) else {
            return Ok(Act::Stop(TempEnding::Undefined));
        };
        let place = moved_word(pointer, *plus);
        match self.memory.store(place, store_width(*op), word) {
            None => Ok(Act::Stop(TempEnding::Undefined)),
            Some(()) => Ok(Act::Next),
        }
    }

    /// Does an instruction that goes to memory, or says where it is.
    fn access(&mut self, number: usize, insn: &TempInsn) -> Result<Act> {
        match insn {
            TempInsn::ObjectAddress { place, plus, .. } => {
                let word = self.object_address(*place, *plus)?;
                self.give(number, insn, Some(word))
            }
            TempInsn::Load { op, plus, .. } => self.load(number, insn, *op, *plus),
            TempInsn::Store { .. } => self.store(number, insn),
            _ => bail!("no access"),
        }
    }

    /// Does an instruction on words.
    fn compute(&mut self, number: usize, insn: &TempInsn) -> Result<Act> {
        match insn {
            TempInsn::Address { op, base, plus, .. } => {
                let by = match op {
                    AddressOp::Lda => i64::from(*plus),
                    AddressOp::Ldah => i64::from(*plus) * 65_536,
                };
                let word = self.first_operand(number, insn, *base)?;
                let moved = word.map(|word| word.wrapping_add(by.cast_unsigned()));
                self.give(number, insn, moved)
            }
            TempInsn::Operate {
                op,
                left,
                right,
                ..
            } => {
                let a = self.first_operand(number, insn, *left)?;
                let b = self.second_operand(number, insn, *left, *right)?;
                let (Some(a), Some(b)) = (a, b) else {
                    return Ok(Act::Stop(TempEnding::Undefined));
                };
                let outcome = operate(*op, a, b)?;
                self.give_outcome(number, insn, outcome)
            }
            TempInsn::Extend { op, source, .. } => {
                let word = self.second_operand(number, insn, FirstOperand::Zero, *source)?;
                let wide = word.map(|word| extend(*op, word));
                self.give(number, insn, wide)
            }
            TempInsn::Branch { op, block, .. } => match self.read(number, insn, 0)? {
                None => Ok(Act::Stop(TempEnding::Undefined)),
                Some(word) if passes(*op, word) => Ok(Act::Jump(*block)),
                Some(_) => Ok(Act::Next),
            },
            _ => self.access(number, insn),
        }
    }

    /// Moves what a place holds to another one.
    fn pass(&mut self, number: usize, insn: &TempInsn) -> Result<Act> {
        match insn {
            TempInsn::ToFixed { register, .. } => {
                let content = self.read(number, insn, 0)?;
                self.frame
                    .put(CallPlace::Register(register.number()), content)?;
                Ok(Act::Next)
            }
            TempInsn::FromFixed { register, .. } => {
                let content = self.register(*register);
                self.write(number, insn, content)?;
                Ok(Act::Next)
            }
            TempInsn::SetFixed {
                register,
                number: set,
            } => {
                let word = i64::from(*set).cast_unsigned();
                self.frame
                    .put(CallPlace::Register(register.number()), Some(word))?;
                Ok(Act::Next)
            }
            TempInsn::WriteArgument { number: place, .. } => {
                if u64::from(*place) + 6 >= u64::from(self.flat()?.widest) {
                    return Ok(Act::Stop(TempEnding::Undefined));
                }
                let content = self.read(number, insn, 0)?;
                self.frame.put(CallPlace::Outgoing(*place), content)?;
                Ok(Act::Next)
            }
            TempInsn::ReadArgument { number: place, .. } => {
                let content = self.frame.get(CallPlace::Incoming(*place));
                self.give(number, insn, content)
            }
            _ => self.compute(number, insn),
        }
    }

    /// What comes of an instruction.
    fn act(&mut self, number: usize, insn: &TempInsn) -> Result<Act> {
        match insn {
            TempInsn::Jump { block } => Ok(Act::Jump(*block)),
            TempInsn::Call {
                function,
                arguments,
            } => Ok(Act::Call {
                function: *function,
                arguments: *arguments,
            }),
            TempInsn::Return { with_value } => Ok(Act::Return {
                with_value: *with_value,
            }),
            TempInsn::Serve { service } => self.serve(*service),
            TempInsn::Divide { .. } => self.divide(insn),
            TempInsn::Mark => Ok(Act::Next),
            _ => self.pass(number, insn),
        }
    }

    /// Calls a function.
    fn call(&mut self, function: u32, arguments: u32) -> Result<()> {
        let mut frame = CallFrame::new(self.alloc, function, self.memory.end());
        for number in 0..arguments {
            let content = self.frame.get(argument_place(number, true));
            frame.put(argument_place(number, false), content)?;
        }
        let caller = std::mem::replace(&mut self.frame, frame);
        self.callers.push(caller)?;
        self.begin_objects()
    }

    /// Ends a call, and the run where it was the first one.
    fn leave(&mut self, with_value: bool) -> Result<Option<TempEnding>> {
        let value = match with_value {
            true => self.register(FixedRegister::Value),
            false => None,
        };
        let Some(caller) = self.callers.pop() else {
            let ending = match value {
                None => TempEnding::Undefined,
                Some(word) => TempEnding::Done(word % 256),
            };
            return Ok(Some(ending));
        };
        self.memory.end_objects(self.frame.base);
        self.frame = caller;
        let call = self.insn()?.context("no call waits")?;
        self.frame.end(&call, self.is_placed);
        self.frame.put(CallPlace::Register(0), value)?;
        self.frame.at = self.frame.at.wrapping_add(1);
        Ok(None)
    }

    /// Goes on with what came of an instruction.
    fn follow(&mut self, act: Act) -> Result<Option<TempEnding>> {
        match act {
            Act::Next => self.frame.at = self.frame.at.wrapping_add(1),
            Act::Jump(block) => self.go_to(block)?,
            Act::Call {
                function,
                arguments,
            } => self.call(function, arguments)?,
            Act::Return { with_value } => return self.leave(with_value),
            Act::Stop(ending) => return Ok(Some(ending)),
        }
        Ok(None)
    }

    /// Does one instruction, or goes to the next block.
    fn step(&mut self) -> Result<Option<TempEnding>> {
        let Some(insn) = self.insn()? else {
            let next = self.frame.block.wrapping_add(1);
            self.go_to(next)?;
            return Ok(None);
        };
        let takes_turn = matches!(
            insn,
            TempInsn::Call { .. } | TempInsn::Serve { .. } | TempInsn::Mark
        );
        if takes_turn && !self.take_turn() {
            return Ok(Some(TempEnding::More));
        }
        let number = self.number()?;
        if self.is_placed {
            self.move_before(number)?;
        }
        let act = self.act(number, &insn)?;
        self.follow(act)
    }

    /// Runs to the end.
    pub fn run(&mut self) -> Result<TempEnding> {
        for _ in 0..MOST {
            if let Some(ending) = self.step()? {
                return Ok(ending);
            }
        }
        bail!("the run goes on and on")
    }
}
