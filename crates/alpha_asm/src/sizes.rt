//! How many words an item has.

ghost use Rattle.std.specs.Prelude.{◌≡◌, ◌≤◌};
ghost use Rattle.alpha_isa.specs.Step.{links};
ghost use Rattle.alpha_items.specs.Layout.{item_words};
ghost use Rattle.alpha_asm.specs.model.Sweeps.{is_branch_item};

use alpha_isa::insn::BranchOp;
use alpha_items::item::AsmItem;

/// Whether a branch leaves the next address in its register, and so has no condition.
pub(crate) fn is_link(op: BranchOp) -> bool
    ensures { result ≡ links op }
{
    matches!(op, BranchOp::Br | BranchOp::Bsr)
}

/// Whether an item is a branch to a label.
pub(crate) fn is_branch(item: &AsmItem) -> bool
    ensures { result ≡ is_branch_item item.now }
{
    matches!(item, AsmItem::Branch { .. })
}

/// The words of an item, which is far or not.
pub(crate) fn words_of_item(item: &AsmItem, far: bool) -> u64
    ensures words { result ≡ item_words far item.now }
    ensures few { result ≤ 4 }
{
    match item {
        AsmItem::Label(_) | AsmItem::Name(_) => 0,
        AsmItem::Plain(_) => 1,
        AsmItem::Branch { op, .. } => {
            if !far {
                1
            } else if is_link(*op) {
                3
            } else {
                4
            }
        }
        AsmItem::TextAddress { .. } | AsmItem::DataAddress { .. } => 2,
    }
}
