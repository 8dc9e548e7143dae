//! The temporaries that stand for registers.

ghost use Rattle.std.specs.Prelude.{◌≡◌, ◌-◌, ◌^◌, ◌<◌};
ghost use Rattle.selection_code.specs.Instructions as code;

/// The first temporaries are used within the code of one instruction.
pub const SCRATCH_COUNT: u32 = 4;

/// The temporary that stands for a register.
pub fn temp_of(register: u32) -> u32
    requires { register < 2 ^ 32 - 4 }
    ensures { result ≡ code.temp_of register }
{
    register + SCRATCH_COUNT
}
