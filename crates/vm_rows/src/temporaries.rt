//! Runs of the programs that are selected, over temporaries, in the slots of the plainest allocations and in the
//! registers of those of a scan.

use alloc_model::allocation::Allocation;
use alloc_plain::PlainAllocator;
use alloc_rules::allocate;
use alpha_select::select;
use anyhow::{Result, ensure};
use binpack_scan::BinpackAllocator;
use mem_objects::DataObject;
use row_temp_machine::machine::{TempEnding, TempMachine};
use std::alloc::Global;
use suifvm_checks::size::is_small;
use suifvm_ir::program::VmProgram;
use suifvm_run::VmEnding;
use temp_ir::program::TempProgram;

/// What a run over virtual registers took and came to.
#[derive(Drop)]
pub struct Run<'a> {
    pub input: &'a [u8],
    pub turns: u64,
    pub ending: VmEnding,
    pub output: &'a [u8],
}

/// Where the values of a run stand.
#[derive(Clone, Copy, Debug)]
enum Standing {
    Temporaries,
    Slots,
    Registers,
}

/// Whether they stand where an allocation puts them.
fn is_placed(standing: Standing) -> bool {
    match standing {
        Standing::Temporaries => false,
        Standing::Slots => true,
        Standing::Registers => true,
    }
}

/// Whether a run over temporaries ends as that over virtual registers.
fn is_same(ending: TempEnding, due: &VmEnding) -> bool {
    match (ending, due) {
        (TempEnding::Done(status), VmEnding::Ended { status: other }) => status
            == u64::from(*other),
        (TempEnding::Trap(code), VmEnding::Trapped { code: other }) => code == *other,
        (TempEnding::More, VmEnding::Budget { .. }) => true,
        _ => false,
    }
}

/// Puts a line where a run ends in another way than is due, or puts other bytes.
fn put_difference(
    shown: &mut Vec<u8>,
    alloc: Global,
    allocations: &[Allocation],
    globals: &[DataObject],
    standing: Standing,
    run: &Run<'_>,
) -> Result<()> {
    let input = Vec::from_slice(alloc, run.input)?;
    let mut machine = TempMachine::new(
        alloc,
        allocations,
        globals,
        is_placed(standing),
        input,
        run.turns,
    )?;
    let ending = machine.run()?;
    if is_same(ending, &run.ending) && machine.output.as_slice() == run.output {
        return Ok(());
    }
    let line = format!(in alloc; "{standing:?} {ending:?} out ")?;
    shown.extend_from_slice(line.as_bytes())?;
    shown.extend_from_slice(machine.output.as_slice())?;
    shown.push(b'\n')?;
    Ok(())
}

/// The functions that are selected.
fn selected_of(alloc: Global, program: &VmProgram) -> Result<TempProgram> {
    ensure!(is_small(program), "the program is too large");
    Ok(select(alloc, program)?)
}

/// What differs where the program that is selected is run: nothing, where it ends as it should.
pub fn differences(alloc: Global, program: &VmProgram, run: &Run<'_>) -> Result<Vec<u8>> {
    let selected = selected_of(alloc, program)?;
    let plain = allocate(alloc, &PlainAllocator, &selected)?;
    let scans = allocate(alloc, &BinpackAllocator, &selected)?;
    let globals = program.globals.as_slice();
    let mut shown = Vec::new(alloc);
    put_difference(
        &mut shown,
        alloc,
        plain.as_slice(),
        globals,
        Standing::Temporaries,
        run,
    )?;
    put_difference(
        &mut shown,
        alloc,
        plain.as_slice(),
        globals,
        Standing::Slots,
        run,
    )?;
    put_difference(
        &mut shown,
        alloc,
        scans.as_slice(),
        globals,
        Standing::Registers,
        run,
    )?;
    Ok(shown)
}
