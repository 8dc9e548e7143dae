//! Parts of lists.

ghost use Rattle.std.specs.Prelude.{◌≡◌, IfOk};
ghost use Rattle.c_typing_state.specs.Checks.{append_part};

use bk_containers::Seq;
use std::alloc::AllocError;

/// A part more, where none is missing so far.
pub fn append_part<T: Drop>(
    found: Option<Seq<T>>,
    part: Option<T>,
) -> Result<Option<Seq<T>>, AllocError>
    ensures { IfOk result (λ r. r ≡ append_part found part) }
{
    match found {
        None => Ok(None),
        Some(mut found) => match part {
            None => Ok(None),
            Some(part) => {
                found.push(part)?;
                Ok(Some(found))
            }
        },
    }
}
