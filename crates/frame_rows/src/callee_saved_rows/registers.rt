//! The registers that a called function keeps.

ghost use Rattle.std.specs.Prelude.{◌≡◌};
ghost use Rattle.frame_rows.specs.callee_saved_rows.Keeping as spec;

/// A register that is the same behind a call as before it (register usage of the Alpha calling standard).
#[derive(Clone, Copy, Debug, PartialEq, Eq)]
pub enum KeptRegister {
    Register9,
    Register10,
    Register11,
    Register12,
    Register13,
    Register14,
    Register15,
}

impl KeptRegister {
    /// Its number, from 9 to 15.
    pub fn number(self) -> u8
        ensures { result ≡ spec.kept_number self }
    {
        match self {
            KeptRegister::Register9 => 9,
            KeptRegister::Register10 => 10,
            KeptRegister::Register11 => 11,
            KeptRegister::Register12 => 12,
            KeptRegister::Register13 => 13,
            KeptRegister::Register14 => 14,
            KeptRegister::Register15 => 15,
        }
    }
}
