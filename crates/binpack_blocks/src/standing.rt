//! In which registers fixed values stand behind each instruction of a block.

ghost use Rattle.std.specs.Prelude.{◌≡◌, ◌+◌, ◌<◌, [], ◌∷◌, List, Some, length, slice_get, slice_index_or, IfOk};
ghost use Rattle.temp_ir.specs.declared.insn.TempInsn.{TempInsn};
ghost use Rattle.alloc_rules.specs.Visits as visits;
ghost use Rattle.binpack_blocks.specs.model.Standing.{IsStanding, AreStanding};

use crate::registers::{reads_fixed, takes_away};
use bk_containers::Seq;
use std::alloc::{AllocError, Global};
use temp_ir::insn::TempInsn;

/// The number of registers.
const REGISTERS: u8 = 32;

/// Whether a fixed value stands in a register before an instruction.
fn stands_before(insn: &TempInsn, r: u8, behind: &[bool]) -> bool
    requires given { r < 32 }
    requires size { length behind.now ≡ 32 }
    ensures { (rest : List TempInsn) → IsStanding rest behind.now
        → result ≡ visits.holds_fixed_value r (insn.now ∷ rest) }
{
    reads_fixed(insn, r) || (!takes_away(insn, r) && behind[r as usize])
}

/// In which registers fixed values stand before an instruction, where they stand so behind it.
fn row_before(alloc: Global, insn: &TempInsn, behind: &[bool]) -> Result<Seq<bool>, AllocError>
    requires { length behind.now ≡ 32 }
    ensures { IfOk result (λ row. (rest : List TempInsn) → IsStanding rest behind.now → IsStanding (insn.now ∷ rest) row) }
{
    let mut row = Seq::new(alloc);
    for r in 0..REGISTERS {
        row.push(stands_before(insn, r, behind))?;
    }
    Ok(row)
}

/// No fixed value stands anywhere.
fn blank_row(alloc: Global) -> Result<Seq<bool>, AllocError>
    ensures { IfOk result (λ row. IsStanding [] row) }
{
    let mut row = Vec::new(alloc);
    row.resize(REGISTERS as usize, false)?;
    Ok(Seq::from_vec(row))
}

/// The instruction at a place.
pub(crate) fn insn_at(insns: &[TempInsn], place: usize) -> TempInsn
    requires { place < length insns.now }
    ensures { slice_get insns.now place ≡ Some result }
{
    insns[place]
}

/// The row at a place.
pub(crate) fn row_at(rows: &[Seq<bool>], place: usize) -> &[bool]
    requires { place < length rows.now }
    ensures { result.now ≡ slice_index_or rows.now place [] }
{
    rows[place].as_slice()
}

/// In which registers fixed values stand behind the last instructions of a block: none of them, one, and so on.
pub(crate) fn standing_rows(alloc: Global, insns: &[TempInsn]) -> Result<Seq<Seq<bool>>, AllocError>
    ensures size { IfOk result (λ rows. length rows ≡ length insns.now + 1) }
    ensures rows { IfOk result (λ rows. AreStanding insns.now (length insns.now) rows) }
{
    let mut rows = Seq::new(alloc);
    rows.push(blank_row(alloc)?)?;
    for done in 0..insns.len() {
        let insn = insn_at(insns, insns.len() - 1 - done);
        let row = row_before(alloc, &insn, row_at(rows.as_slice(), done))?;
        rows.push(row)?;
    }
    Ok(rows)
}
