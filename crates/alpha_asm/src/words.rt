//! The words of the items of a text.

ghost use Rattle.std.specs.Prelude.{◌≡◌, ◌++◌, ◌∷◌, [], ◌<◌, ◌≤◌, ◌+◌, ◌*◌, ◌^◌, pos, ◌-◌, ◌-ℤ◌, false, length, map, OnOk};
ghost use Rattle.alpha_isa.specs.declared.insn.Fields.TheVariants as fields;
ghost use Rattle.alpha_isa.specs.Lawful.{AreLawfulFields, IsBranchDisplacement};
ghost use Rattle.alpha_isa.specs.Words.{insn_word};
ghost use Rattle.alpha_isa.specs.Program.{most_bytes, most_words, word_address};
ghost use Rattle.alpha_items.specs.Items.{IsItem};
ghost use Rattle.alpha_items.specs.Layout as layout;
ghost use Rattle.alpha_items.specs.Layout.{ItemReaches, label_place};
ghost use Rattle.alpha_items.specs.Words as items;
ghost use Rattle.alpha_items.specs.Words.{high_of, scratch, address_insns, far_insns, branch_insns, item_insns, text_insns, most_address};
ghost use Rattle.alpha_asm.specs.model.Text as model;
ghost use Rattle.alpha_asm.specs.model.Text.{IsLaidOut};

use crate::sizes::is_link;
use alpha_isa::encode::encode;
use alpha_isa::insn::{BranchOp, Fields, Insn32, JumpOp, MemoryOp};
use alpha_isa::limits::TEXT_START;
use alpha_items::item::AsmItem;
use std::alloc::AllocError;

/// The register that holds the address of a far branch, and the one that is zero.
const SCRATCH: u8 = 28;

const ZERO: u8 = 31;

/// Appends the word of an instruction.
fn put(words: &mut Vec<u32>, fields: Fields) -> Result<(), AllocError>
    requires { AreLawfulFields fields }
    ensures { OnOk result (words.new.items ≡ words.old.items ++ insn_word fields ∷ []) }
{
    words.push(encode(&Insn32 { fields }))?;
    Ok(())
}

/// How many times 65,536 stand in an address, with the nearest one counted.
fn high_half(address: u64) -> i16
    requires { address < most_address }
    ensures { result ≡ pos (high_of address) }
{
    ((address + 32_768) / 65_536) as i16
}

/// What an address has beyond its high half, from -32,768 to 32,767.
fn low_half(address: u64) -> i16
    requires { address < most_address }
    ensures { result ≡ pos address -ℤ pos (high_of address * 65536) }
{
    (address as i64 - i64::from(high_half(address)) * 65_536) as i16
}

/// Appends the two words that set a register to an address.
fn put_address(words: &mut Vec<u32>, ra: u8, address: u64) -> Result<(), AllocError>
    requires register { ra < 32 }
    requires address { address < most_address }
    ensures { OnOk result (words.new.items ≡ words.old.items ++ map insn_word (address_insns ra address)) }
{
    put(
        words,
        Fields::Memory {
            op: MemoryOp::Ldah,
            ra,
            rb: ZERO,
            disp: high_half(address),
        },
    )?;
    put(
        words,
        Fields::Memory {
            op: MemoryOp::Lda,
            ra,
            rb: ra,
            disp: low_half(address),
        },
    )
}

/// Appends a jump to an address, of which the next address goes to a register.
fn put_jump(words: &mut Vec<u32>, op: JumpOp, ra: u8, address: u64) -> Result<(), AllocError>
    requires register { ra < 32 }
    requires address { address < most_address }
    ensures { OnOk result
        (words.new.items ≡ words.old.items
        ++ map insn_word (address_insns scratch address ++ fields.Jump op ra scratch ∷ [])) }
{
    put_address(words, SCRATCH, address)?;
    put(
        words,
        Fields::Jump {
            op,
            ra,
            rb: SCRATCH,
        },
    )
}

/// The branch that is taken where another is not.
fn inverse(op: BranchOp) -> BranchOp
    ensures { result ≡ items.inverse op }
{
    match op {
        BranchOp::Beq => BranchOp::Bne,
        BranchOp::Bne => BranchOp::Beq,
        BranchOp::Blt => BranchOp::Bge,
        BranchOp::Bge => BranchOp::Blt,
        BranchOp::Ble => BranchOp::Bgt,
        BranchOp::Bgt => BranchOp::Ble,
        BranchOp::Blbc => BranchOp::Blbs,
        BranchOp::Blbs => BranchOp::Blbc,
        BranchOp::Br => BranchOp::Br,
        BranchOp::Bsr => BranchOp::Bsr,
    }
}

/// The jump for a branch without a condition.
fn link_jump(op: BranchOp) -> JumpOp
    ensures { result ≡ model.link_jump op }
{
    match op {
        BranchOp::Bsr => JumpOp::Jsr,
        _ => JumpOp::Jmp,
    }
}

/// Appends a far branch: a jump, which a condition that does not hold passes over.
fn put_far(words: &mut Vec<u32>, op: BranchOp, ra: u8, address: u64) -> Result<(), AllocError>
    requires register { ra < 32 }
    requires address { address < most_address }
    ensures { OnOk result (words.new.items ≡ words.old.items ++ map insn_word (far_insns op ra address)) }
{
    if is_link(op) {
        return put_jump(words, link_jump(op), ra, address);
    }
    put(
        words,
        Fields::Branch {
            op: inverse(op),
            ra,
            disp: 3,
        },
    )?;
    put_jump(words, JumpOp::Jmp, ZERO, address)
}

/// How many words past the next one a branch at a word goes to reach another.
fn displacement(here: u64, there: u64) -> i32
    requires here { here < 2 ^ 32 }
    requires there { there < 2 ^ 32 }
    requires reaches { IsBranchDisplacement (layout.displacement here there) }
    ensures { result ≡ layout.displacement here there }
{
    (there as i64 - (here as i64 + 1)) as i32
}

/// Appends a branch to a word.
fn put_branch(
    words: &mut Vec<u32>,
    op: BranchOp,
    ra: u8,
    far: bool,
    there: u64,
) -> Result<(), AllocError>
    requires register { ra < 32 }
    requires here { length words.old.items ≤ most_words }
    requires there { there ≤ most_words }
    requires reaches { far ≡ false → IsBranchDisplacement (layout.displacement (length words.old.items) there) }
    ensures { OnOk result
        (words.new.items ≡ words.old.items ++ map insn_word (branch_insns far op ra (length words.old.items) there)) }
{
    if far {
        return put_far(words, op, ra, TEXT_START + 4 * there);
    }
    let disp = displacement(words.len() as u64, there);
    put(words, Fields::Branch { op, ra, disp })
}

/// Appends the words of an item. `there` is the word of the label that it uses, if any, and `start` the
/// address of the data.
fn put_item(
    words: &mut Vec<u32>,
    item: &AsmItem,
    far: bool,
    there: u64,
    start: u64,
) -> Result<(), AllocError>
    requires item { IsItem most_bytes item.now }
    requires here { length words.old.items ≤ most_words }
    requires there { there ≤ most_words }
    requires start { start < 2 ^ 31 - 2 ^ 27 }
    requires reaches { far ≡ false → ItemReaches (λ _. there) (length words.old.items) item.now }
    ensures { OnOk result
        (words.new.items ≡ words.old.items
        ++ map insn_word (item_insns (λ _. there) start (length words.old.items) far item.now)) }
{
    match item {
        AsmItem::Label(_) => Ok(()),
        AsmItem::Name(_) => Ok(()),
        AsmItem::Plain(insn) => put(words, insn.fields),
        AsmItem::Branch { op, ra, .. } => put_branch(words, *op, *ra, far, there),
        AsmItem::TextAddress { ra, .. } => put_address(words, *ra, TEXT_START + 4 * there),
        AsmItem::DataAddress { ra, offset } => put_address(words, *ra, start + u64::from(*offset)),
    }
}

/// Appends the words of a text that is laid out, where there are none yet. `start` is the address of the
/// data.
#[tactic(auto, using(crate::proofs::Text::there_small, crate::proofs::Text::here_small, crate::proofs::Text::reaches_at, crate::proofs::Text::text_begins))]
pub(crate) fn put_text(
    words: &mut Vec<u32>,
    items: &[AsmItem],
    targets: &[usize],
    far: &[bool],
    places: &[u64],
    start: u64,
) -> Result<(), AllocError>
    requires empty { words.old.items ≡ [] }
    requires laid_out { IsLaidOut items.now targets.now far.now places.now }
    requires start { start < 2 ^ 31 - 2 ^ 27 }
    ensures { OnOk result
        (words.new.items ≡ map insn_word (text_insns (label_place items.now far.now) start 0 items.now far.now)) }
{
    for i in 0..items.len() {
        put_item(words, &items[i], far[i], places[targets[i]], start)?;
    }
    Ok(())
}
