//! The registers of the machine.

ghost use Rattle.std.specs.Prelude.{◌≡◌, ◌<◌, ◌==◌, slice_index, slice_set, if◌then◌else◌, replicate};

/// 32 words, of which number 31 is always 0.
#[derive(Debug, Drop)]
pub(crate) struct Registers {
    words: [u64; 32],
    ghost zero: { slice_index words 31 ≡ 0 },
}

impl Registers {
    ghost use Rattle.alpha_run.specs.model.MemoryParts.{word_in};

    /// All registers at 0.
    pub(crate) fn new() -> Registers
        ensures { result.words ≡ replicate 32 0 }
    {
        Registers { words: [0; 32] }
    }

    pub(crate) fn get(&self, register: u8) -> u64
        requires { register < 32 }
        ensures { result ≡ word_in self.now register }
    {
        self.words[register as usize]
    }

    /// Gives a word to a register. Number 31 loses it.
    pub(crate) fn set(&mut self, register: u8, word: u64)
        requires { register < 32 }
        ensures { self.new.words ≡ (if register == 31 then self.old.words else slice_set self.old.words register word) }
    {
        if register != 31 {
            self.words[register as usize] = word;
        }
    }
}
