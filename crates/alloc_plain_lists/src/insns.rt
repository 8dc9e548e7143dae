//! The transfers and registers of one instruction.

ghost use Rattle.std.specs.Prelude.{◌≡◌, ◌+◌, ◌++◌, ◌≤◌, length, IfOk, OnOk};
ghost use Rattle.temp_ir.specs.Insns.{reads_of, writes_of};
ghost use Rattle.alloc_plain_lists.specs.Plain.{loads, stores, plain_registers, stores_behind, writes_in};

use alloc_model::allocation::Transfer;
use bk_containers::Seq;
use pass_core::Insn;
use std::alloc::{AllocError, Global};
use temp_ir::insn::TempInsn;

/// How many temporaries an instruction reads.
#[tactic(auto, using(crate::proofs::Counts::none_read, crate::proofs::Counts::one_read, crate::proofs::Counts::two_read))]
pub fn read_count(insn: &TempInsn) -> u8
    ensures { result ≡ length (reads_of insn.now) }
{
    match insn.read_at(0) {
        None => 0,
        Some(_) => match insn.read_at(1) {
            None => 1,
            Some(_) => 2,
        },
    }
}

/// How many temporaries an instruction writes.
#[tactic(auto, using(crate::proofs::Counts::none_written, crate::proofs::Counts::one_written))]
fn write_count(insn: &TempInsn) -> u8
    ensures { result ≡ length (writes_of insn.now) }
{
    match insn.write_at(0) {
        None => 0,
        Some(_) => 1,
    }
}

/// The registers of an instruction's temporaries.
#[tactic(auto, using(crate::proofs::Counts::registers_next, crate::proofs::Counts::few_registers))]
pub(crate) fn registers(alloc: Global, insn: &TempInsn) -> Result<Seq<u8>, AllocError>
    ensures { IfOk result (λ registers. registers ≡ plain_registers insn.now) }
{
    let count = read_count(insn) + write_count(insn);
    let mut registers = Seq::new(alloc);
    for k in 0..count {
        registers.push(k + 1)?;
    }
    Ok(registers)
}

/// Puts the loads of what an instruction reads.
#[tactic(auto, using(crate::proofs::Counts::no_load, crate::proofs::Counts::one_load, crate::proofs::Counts::two_loads))]
fn put_loads(out: &mut Seq<Transfer>, insn: &TempInsn) -> Result<(), AllocError>
    ensures { OnOk result (out.new ≡ out.old ++ loads (reads_of insn.now) 1) }
{
    match insn.read_at(0) {
        None => Ok(()),
        Some(first) => {
            out.push(Transfer::Load {
                temp: first,
                reg: 1,
            })?;
            match insn.read_at(1) {
                None => Ok(()),
                Some(second) => out.push(Transfer::Load {
                    temp: second,
                    reg: 2,
                }),
            }
        }
    }
}

/// Puts the stores of what an instruction wrote.
#[tactic(auto, using(crate::proofs::Counts::no_store, crate::proofs::Counts::one_store))]
fn put_insn_stores(out: &mut Seq<Transfer>, insn: &TempInsn) -> Result<(), AllocError>
    ensures { OnOk result (out.new ≡ out.old ++ stores (writes_of insn.now) (1 + length (reads_of insn.now))) }
{
    match insn.write_at(0) {
        None => Ok(()),
        Some(temp) => out.push(Transfer::Store {
            temp,
            reg: 1 + read_count(insn),
        }),
    }
}

/// Puts the stores of what an instruction wrote, if there is one.
#[tactic(auto, using(crate::proofs::Counts::nothing_stored))]
fn put_stores(out: &mut Seq<Transfer>, insn: Option<TempInsn>) -> Result<(), AllocError>
    ensures { OnOk result (out.new ≡ out.old ++ stores_behind insn) }
{
    match insn {
        None => Ok(()),
        Some(insn) => put_insn_stores(out, &insn),
    }
}

/// The stores of what an instruction wrote, if there is one.
pub(crate) fn stores_of(alloc: Global, insn: Option<TempInsn>) -> Result<Seq<Transfer>, AllocError>
    ensures { IfOk result (λ found. found ≡ stores_behind insn) }
{
    let mut found = Seq::new(alloc);
    put_stores(&mut found, insn)?;
    Ok(found)
}

/// The transfers before an instruction: the stores of what the one before it wrote, and its own loads.
pub fn transfers(
    alloc: Global,
    before: Option<TempInsn>,
    insn: &TempInsn,
) -> Result<Seq<Transfer>, AllocError>
    ensures { IfOk result (λ found. found ≡ stores_behind before ++ loads (reads_of insn.now) 1) }
{
    let mut found = Seq::new(alloc);
    put_stores(&mut found, before)?;
    put_loads(&mut found, insn)?;
    Ok(found)
}
