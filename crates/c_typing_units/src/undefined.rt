//! Uses of what a unit never defines.

ghost use Rattle.std.specs.Prelude.{◌≡◌, OnOk};
ghost use Rattle.c_typing_units.specs.Undefined as spec;

use bk_containers::Seq;
use c_typing_faults::{Fault, Kind};
use c_typing_state::{Notes, Use};
use std::alloc::AllocError;

fn add_uses(uses: &[Use], faults: &mut Seq<Fault>) -> Result<(), AllocError>
    ensures { OnOk result (faults.new ≡ spec.with_uses uses.now faults.old) }
{
    for one in uses {
        faults.push(Fault {
            at: one.at,
            kind: Kind::NotDefined,
        })?;
    }
    Ok(())
}

/// Notes each use of a function or object that the unit never defines.
pub(crate) fn note_undefined(notes: &mut Notes<'_>) -> Result<(), AllocError>
    ensures { OnOk result (notes.new ≡ spec.undefined_noted notes.old) }
{
    add_uses(notes.uses.as_slice(), &mut notes.faults)
}
