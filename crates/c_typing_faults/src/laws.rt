//! The law of the order of faults, on a function that does nothing.

ghost use Rattle.std.specs.Prelude.{◌≡◌, [], List, All, None, Some, false};
ghost use Rattle.c_typing_faults.specs.declared.faults.Fault.{Fault};
ghost use Rattle.c_typing_faults.specs.Faults.{is_before, sort_faults, head};

/// Of some faults there is a first one, and none of them comes before it.
pub fn the_first_is_least()
    ensures some { (fs : List Fault) → head (sort_faults fs) ≡ None → fs ≡ [] }
    ensures least { (fs : List Fault) (f : Fault) → head (sort_faults fs) ≡ Some f → All (λ g. is_before g f ≡ false) fs }
{}
