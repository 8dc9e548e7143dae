//! What is asked of objects.

ghost use Rattle.std.specs.Prelude.{◌≡◌};
ghost use Rattle.frame_checks.specs.model.Storage as storage;

use mem_objects::{DataObject, MOST_DATA, next_place};
use pass_core::function::MemoryLocal;

/// Whether memory locals, each up to a multiple of 8, have no more bytes than data may have.
#[tactic(auto, using(crate::proofs::Storage::small_next, crate::proofs::Storage::small_large, crate::proofs::Storage::small_past, crate::proofs::Storage::small_end))]
pub(crate) fn are_small(objects: &[MemoryLocal]) -> bool
    ensures { result ≡ storage.are_small_from 0 objects.now }
{
    let mut end = 0;
    for object in objects {
        if object.size > MOST_DATA {
            return false;
        }
        end += next_place(object.size);
        if end > MOST_DATA {
            return false;
        }
    }
    true
}

/// Whether objects of static storage lie one behind the other, none of them past the end of the most data.
#[tactic(auto, using(crate::proofs::Storage::lie_next, crate::proofs::Storage::lie_large, crate::proofs::Storage::lie_elsewhere, crate::proofs::Storage::lie_past, crate::proofs::Storage::lie_end))]
pub(crate) fn lie_in_order(globals: &[DataObject]) -> bool
    ensures { result ≡ storage.lie_from 0 globals.now }
{
    let mut end = 0;
    for object in globals {
        if object.size > MOST_DATA {
            return false;
        }
        if object.offset != next_place(end) {
            return false;
        }
        end = object.offset + object.size;
        if end > MOST_DATA {
            return false;
        }
    }
    true
}
