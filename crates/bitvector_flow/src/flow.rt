//! Sets for the blocks of a function.

use bk_bits::BitSet;
use bk_containers::Seq;

/// A set for the top of each block, and one for its bottom.
#[derive(Drop)]
pub struct Flow {
    pub top: Seq<BitSet>,
    pub bottom: Seq<BitSet>,
}
