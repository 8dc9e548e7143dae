//! Texts and string literals hold bytes: a byte that is read is below 256.

ghost use Rattle.std.specs.Prelude.{All};
ghost use Rattle.mem_model.specs.Bytes.{AreBytes};

use bk_containers::Seq;

/// Reads the bytes of a text, so that each is known to be below 256.
#[tactic(auto, using(crate::proofs::CTextBytes::Bytes::one_less, crate::proofs::CTextBytes::Bytes::none_left))]
pub fn read_text(text: &[u8])
    ensures { AreBytes text.now }
{
    for byte in text {
        let _byte = *byte;
    }
}

/// Reads the bytes of string literals, so that each is known to be below 256.
#[tactic(auto, using(crate::proofs::CTextBytes::Bytes::one_more, crate::proofs::CTextBytes::Bytes::all_read))]
pub fn read_texts(texts: &[Seq<u8>])
    ensures { All AreBytes texts.now }
{
    for text in texts {
        read_text(text.as_slice());
    }
}
