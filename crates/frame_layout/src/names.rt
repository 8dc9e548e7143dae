//! Which registers an allocation names.

ghost use Rattle.std.specs.Prelude.{◌≡◌};
ghost use Rattle.std.specs.List.{list_any};
ghost use Rattle.temp_ir.specs.Fixed.{has_number};
ghost use Rattle.alloc_model.specs.Faithful.{named_registers};
ghost use Rattle.alloc_model.specs.Places.{plan_of};
ghost use Rattle.frame_emitter.specs.Shapes.{names_in, plan_names};

use alloc_model::allocation::{Allocation, EdgeCode, Transfer};
use bk_containers::Seq;

/// Whether a transfer names a register.
fn is_in_transfer(transfer: &Transfer, register: u8) -> bool
    ensures { result ≡ has_number (named_registers transfer.now) register }
{
    match transfer {
        Transfer::Store { reg, .. } => *reg == register,
        Transfer::Load { reg, .. } => *reg == register,
        Transfer::Shift { from, to, .. } => *from == register || *to == register,
    }
}

/// Whether one of some transfers does.
#[tactic(auto, using(crate::proofs::Tests::any_here, crate::proofs::Tests::any_left))]
fn is_in_transfers(transfers: &[Transfer], register: u8) -> bool
    ensures { result ≡ names_in transfers.now register }
{
    for transfer in transfers {
        if is_in_transfer(transfer, register) {
            return true;
        }
    }
    false
}

/// Whether a register is one of some.
#[tactic(auto, using(crate::proofs::Tests::any_here, crate::proofs::Tests::any_left))]
fn is_in_registers(registers: &[u8], register: u8) -> bool
    ensures { result ≡ has_number registers.now register }
{
    for named in registers {
        if *named == register {
            return true;
        }
    }
    false
}

/// Whether the transfers before instructions name a register.
#[tactic(auto, using(crate::proofs::Tests::any_here, crate::proofs::Tests::any_left))]
fn is_in_all_transfers(lists: &[Seq<Transfer>], register: u8) -> bool
    ensures { result ≡ list_any (λ xs. names_in xs register) lists.now }
{
    for list in lists {
        if is_in_transfers(list.as_slice(), register) {
            return true;
        }
    }
    false
}

/// Whether it is stated for an instruction.
#[tactic(auto, using(crate::proofs::Tests::any_here, crate::proofs::Tests::any_left))]
fn is_in_all_registers(lists: &[Seq<u8>], register: u8) -> bool
    ensures { result ≡ list_any (λ rs. has_number rs register) lists.now }
{
    for list in lists {
        if is_in_registers(list.as_slice(), register) {
            return true;
        }
    }
    false
}

/// Whether the transfers of edges name it.
#[tactic(auto, using(crate::proofs::Tests::any_here, crate::proofs::Tests::any_left))]
fn is_in_edges(edges: &[EdgeCode], register: u8) -> bool
    ensures { result ≡ list_any (λ e. names_in e.code register) edges.now }
{
    for edge in edges {
        if is_in_transfers(edge.code.as_slice(), register) {
            return true;
        }
    }
    false
}

/// Whether an allocation names a register.
pub(crate) fn is_named(a: &Allocation, register: u8) -> bool
    ensures { result ≡ plan_names (plan_of a.now) register }
{
    if is_in_all_transfers(a.at.as_slice(), register) {
        return true;
    }
    if is_in_all_registers(a.regs.as_slice(), register) {
        return true;
    }
    is_in_edges(a.edges.as_slice(), register)
}
