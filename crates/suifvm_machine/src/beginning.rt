//! The start of a run.

ghost use Rattle.std.specs.Prelude.{◌≡◌, ◌+◌, ◌≤◌, ◌^◌, length, map, IfOk, IfErr, OnOk};
ghost use Rattle.mem_model.specs.Memory as mem;
ghost use Rattle.suifvm_operations.specs.Tidy.{MemoryIsTidy};
ghost use Rattle.suifvm_machine.specs.Begin.{Begins, HasNoStart};
ghost use Rattle.suifvm_machine.specs.Tables.{FunctionsAreNumbered};

use crate::machine::{Call, Machine, StartError, Stop, block_at, function_at};
use crate::tables::ProgramTable;
use bk_memory::memory_is_short;
use mem_model::memory::Mem;
use pass_core::function::MemoryLocal;
use std::alloc::{AllocError, Global};
use suifvm_operations::objects::{MOST_OBJECTS, begin_objects};

/// Begins the objects of a call, where so many were made before.
pub(crate) fn begin_locals(
    memory: &mut Mem,
    made: u64,
    objects: &[MemoryLocal],
) -> Result<(), AllocError>
    requires { MemoryIsTidy memory.old }
    ensures few { OnOk result (made + length objects.now ≤ 2 ^ 63) }
    ensures value { OnOk result (memory.new ≡ mem.begin_objects memory.old (map (λ o. o.size) objects.now)) }
    ensures tidy { OnOk result (MemoryIsTidy memory.new) }
{
    let count = objects.len() as u64;
    // no memory has more objects than it can number
    if made > MOST_OBJECTS || count > MOST_OBJECTS - made {
        return Err(AllocError);
    }
    begin_objects(memory, objects)
}

/// A run at the start of a function without arguments, in a memory in which so many objects were made. Where there is
/// none, why.
pub fn begin<'c, 'p>(
    alloc: Global,
    program: &'c ProgramTable<'p>,
    main: u32,
    memory: Mem,
    made: u64,
    turns: u64,
) -> Result<Machine<'c, 'p>, StartError>
    requires tidy { MemoryIsTidy memory }
    requires made { made ≡ length memory }
    requires numbers { FunctionsAreNumbered 0 program.now.functions.items program.now.end }
    ensures begins { IfOk result (λ m. Begins program.now main memory turns m) }
    ensures ends { IfErr result (λ why. HasNoStart program.now main memory turns why) }
{
    let Some(table) = function_at(program, main) else {
        return Err(StartError::Over(Stop::Undefined(program.end)));
    };
    let Some(row) = block_at(table, 0) else {
        return Err(StartError::Over(Stop::Undefined(table.end)));
    };
    let mut begun = memory;
    match begin_locals(&mut begun, made, table.objects) {
        Ok(()) => {}
        Err(error) => {
            memory_is_short(error);
            return Err(StartError::NoMemory);
        }
    }
    Ok(Machine {
        program,
        memory: begun,
        made: made + table.objects.len() as u64,
        stack: Vec::new(alloc),
        here: Call {
            function: main,
            block: 0,
            at: 0,
            own: made,
            base: 0,
            table,
            row,
        },
        callers: Vec::new(alloc),
        turns,
    })
}
