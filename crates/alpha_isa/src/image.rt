//! Images: the words of a program with its data.

ghost use Rattle.std.specs.Prelude.{◌≡◌, ◌+◌, ◌≤◌, ◌<◌, length};
ghost use Rattle.alpha_isa.specs.Program.{IsLawful, HasZerosCut, most_words, most_bytes};

use std::marker::Model;

/// A program for the machine, whose limits hold: 1 to 2^28 words of text, at most 67,108,864 bytes of
/// data with the zeros behind them, and an entry among the words. Contracts see it as these lists and
/// numbers.
#[derive(Debug, Drop)]
pub struct Image {
    /// The text, an instruction a word.
    pub words: Vec<u32>,
    /// The data, up to the zeros behind it.
    pub bytes: Vec<u8>,
    /// How many zero bytes stand behind the bytes of the data.
    pub zeros: u32,
    /// The number of the word where a run begins.
    pub entry: u32,
}

impl Model for Image {
    ghost use Rattle.alpha_isa.specs.Program.{Program, IsLawful};

    ghost Value = { Program };

    ghost view = { λ i. record { words = i.words.items; bytes = i.bytes.items; zeros = i.zeros; entry = i.entry } };

    ghost invariant = { λ i. IsLawful (record { words = i.words.items; bytes = i.bytes.items; zeros = i.zeros; entry = i.entry }) };
}

impl Image {
    /// The image of these words and bytes, with so many zeros behind the bytes, at whose entry a run
    /// begins.
    pub fn new(words: Vec<u32>, bytes: Vec<u8>, zeros: u32, entry: u32) -> Image
        requires some { 1 ≤ length words.items }
        requires words { length words.items ≤ most_words }
        requires bytes { length bytes.items + zeros ≤ most_bytes }
        requires entry { entry < length words.items }
        ensures image { result ≡ record { words = words.items; bytes = bytes.items; zeros = zeros; entry = entry } }
        ensures lawful { IsLawful result }
    {
        Image {
            words,
            bytes,
            zeros,
            entry,
        }
    }

    /// The same image, with the zero bytes at the end of its data counted as zeros.
    pub fn cut_zeros(self) -> Image
        ensures cut { HasZerosCut self result }
        ensures lawful { IsLawful result }
    {
        let Image {
            words,
            mut bytes,
            mut zeros,
            entry,
        } = self;
        while bytes.last() == Some(&0) {
            bytes.pop();
            zeros += 1;
        }
        Image {
            words,
            bytes,
            zeros,
            entry,
        }
    }
}
