//! The laws, each the contract of a function that does nothing. They speak of blocks that keep the contents of others,
//! as `remove_unreachable` (`cfg`) and `split_edges` (`cfg_edges`) give them.

ghost use Rattle.block_pass_laws.specs.back_laws.Kept.{SettledIsKept, NamesAreKept, MarksAreKept};
ghost use Rattle.block_pass_laws.specs.back_laws.Bulks.{SplitsGrowOnce, RemovalsDoNotGrow, RemovalKeepsCost};

/// Each fixed register that is read was written as fixed before, where it was so in the blocks before.
pub fn settled_is_kept()
    ensures { SettledIsKept }
{}

/// What the blocks name is there, where what those before name is.
pub fn names_are_kept()
    ensures { NamesAreKept }
{}

/// A jump back goes to a block that begins with a mark, where each of the blocks before does.
pub fn marks_are_kept()
    ensures { MarksAreKept }
{}

/// Blocks whose edges were split have at most a block, an instruction and an edge more for each edge.
pub fn splits_grow_once()
    ensures { SplitsGrowOnce }
{}

/// Without some of its blocks a function is no larger than before.
pub fn removals_do_not_grow()
    ensures { RemovalsDoNotGrow }
{}

/// A function over virtual registers without some of its blocks costs no more than before.
pub fn removal_keeps_the_cost()
    ensures { RemovalKeepsCost }
{}
