//! What moves have to be that are made at once.

ghost use Rattle.std.specs.Prelude.{◌≡◌, ◌<◌, ℕ, Some, length, slice_get};
ghost use Rattle.std.specs.Bool.{OnTrue};
ghost use Rattle.par_move.specs.Moves.{HaveDistinctTargets, IsInNoMove};
ghost use Rattle.par_move.specs.declared.moves.Move.{Move};

use par_move::Move;

/// Whether no other move has the target of this one.
fn has_own_target(moves: &[Move], at: usize) -> bool
    requires { at < length moves.now }
    ensures { OnTrue result ((j : ℕ) (m n : Move) → slice_get moves.now at ≡ Some m → slice_get moves.now j ≡ Some n → m.to ≡ n.to → at ≡ j) }
{
    let target = moves[at].to;
    for other in 0..moves.len() {
        if other != at && moves[other].to == target {
            return false;
        }
    }
    true
}

/// Whether no two moves have one target.
pub(crate) fn have_distinct_targets(moves: &[Move]) -> bool
    ensures { OnTrue result (HaveDistinctTargets moves.now) }
{
    for at in 0..moves.len() {
        if !has_own_target(moves, at) {
            return false;
        }
    }
    true
}

/// Whether a register is in no move.
pub(crate) fn is_in_no_move(register: u8, moves: &[Move]) -> bool
    ensures { OnTrue result (IsInNoMove register moves.now) }
{
    for at in 0..moves.len() {
        if moves[at].from == register || moves[at].to == register {
            return false;
        }
    }
    true
}
