//! The image of an assembly.

ghost use Rattle.std.specs.Prelude.{◌≡◌, ℕ, [], ◌+◌, ◌-◌, ◌*◌, ◌<◌, ◌≤◌, ◌^◌, length, map, slice_index, IfOk, IfErr};
ghost use Rattle.bk_memory.specs.Shortage.{MemoryIsShort};
ghost use Rattle.alpha_isa.specs.Program.{IsLawful, most_words, next_part, text_start};
ghost use Rattle.alpha_isa.specs.Words.{insn_word};
ghost use Rattle.alpha_items.specs.Assembly.{IsFix, IsWhole};
ghost use Rattle.alpha_items.specs.Layout.{label_place, text_words};
ghost use Rattle.alpha_items.specs.Words.{Words, text_insns, fixed_data};
ghost use Rattle.std.specs.List.{All};
ghost use Rattle.alpha_asm.specs.declared.assemble.AsmFault.TheVariants.{NoMemory};
ghost use Rattle.alpha_asm.specs.Fault.{HasFewWords, IsAsmFault};
ghost use Rattle.alpha_asm.specs.model.Text.{AreSound};
ghost use Rattle.alpha_asm.specs.model.Plans.{IsPlanOf};

use crate::data::put_fixes;
use crate::far::{Layout, lay_out};
use crate::labels::{Targets, targets_of};
use crate::words::put_text;
use alpha_isa::image::Image;
use alpha_isa::limits::{MOST_WORDS, TEXT_START};
use alpha_items::asm::Asm;
use alpha_items::item::{AsmItem, Fix};
use bk_memory::memory_is_short;
use std::alloc::{AllocError, Global};
use thiserror::Error;

/// Why an assembly has no image.
#[derive(Clone, Copy, Debug, PartialEq, Eq, Error)]
pub enum AsmFault {
    /// Its text has so many words, and an image has at most 2^28.
    #[error("{words} words of text")]
    CodeTooLong { words: u64 },
    /// Memory is short.
    #[error("there was no memory")]
    NoMemory,
}

impl From<AllocError> for AsmFault {
    ghost from_gives = { λ _ fault. (fault ≡ NoMemory) × MemoryIsShort };

    fn from(error: AllocError) -> AsmFault {
        memory_is_short(error);
        AsmFault::NoMemory
    }
}

/// The address of the data behind a text of so many words.
fn data_start(words: u64) -> u64
    requires { words ≤ most_words }
    ensures start { result ≡ next_part (text_start + 4 * words) }
    ensures low { result < 2 ^ 31 - 2 ^ 27 }
{
    (TEXT_START + 4 * words + 65_535) / 65_536 * 65_536
}

/// What is known of a text before its words are made.
#[derive(Debug, Drop)]
struct Plan {
    targets: Targets,
    layout: Layout,
}

/// The plan of a text.
#[tactic(auto, using(crate::proofs::Whole::targets_made, crate::proofs::Whole::plan_made))]
fn plan_of(alloc: Global, items: &[AsmItem]) -> Result<Plan, AllocError>
    requires { AreSound items.now }
    ensures { IfOk result (λ p. IsPlanOf items.now p) }
{
    let targets = targets_of(alloc, items)?;
    let layout = lay_out(alloc, items, targets.of_items.as_slice())?;
    Ok(Plan { targets, layout })
}

/// How many words a text has.
#[tactic(auto, using(crate::proofs::Whole::plan_count))]
fn count_of(items: &[AsmItem], plan: &Plan) -> u64
    requires { IsPlanOf items.now plan.now }
    ensures { result ≡ text_words items.now plan.now.layout.far.items }
{
    plan.layout.places[items.len()]
}

/// The word of a text where a run begins.
fn entry_of(plan: &Plan) -> u64
    requires { plan.now.targets.entry < length plan.now.layout.places.items }
    ensures { result ≡ slice_index plan.now.layout.places.items plan.now.targets.entry }
{
    plan.layout.places[plan.targets.entry]
}

/// The words of a text in front of data at an address.
#[tactic(auto, using(crate::proofs::Whole::plan_laid_out, crate::proofs::Whole::count_of))]
fn text_of(
    alloc: Global,
    items: &[AsmItem],
    plan: &Plan,
    start: u64,
) -> Result<Vec<u32>, AllocError>
    requires plan { IsPlanOf items.now plan.now }
    requires few { text_words items.now plan.now.layout.far.items ≤ most_words }
    requires start { start < 2 ^ 31 - 2 ^ 27 }
    ensures words { IfOk result
        (λ w. w.items
        ≡ map insn_word
        (text_insns (label_place items.now plan.now.layout.far.items) start 0 items.now plan.now.layout.far.items)) }
{
    let mut words = Vec::with_capacity(alloc, count_of(items, plan) as usize)?;
    put_text(
        &mut words,
        items,
        plan.targets.of_items.as_slice(),
        plan.layout.far.as_slice(),
        plan.layout.places.as_slice(),
        start,
    )?;
    Ok(words)
}

/// The data of an assembly at an address, with the addresses that the fixes ask for.
fn data_of(alloc: Global, bytes: &[u8], fixes: &[Fix], start: u64) -> Result<Vec<u8>, AllocError>
    requires fixes { All (λ f. IsFix (length bytes.now) f) fixes.now }
    requires start { start < 2 ^ 31 - 2 ^ 27 }
    ensures data_bytes { IfOk result (λ d. d.items ≡ fixed_data start bytes.now fixes.now) }
    ensures long { IfOk result (λ d. length d.items ≡ length bytes.now) }
{
    let mut data = Vec::from_slice(alloc, bytes)?;
    put_fixes(data.as_mut_slice(), fixes, start);
    Ok(data)
}

/// The image of these items, data and fixes, which are whole together.
fn image_of(
    alloc: Global,
    items: &[AsmItem],
    bytes: &[u8],
    fixes: &[Fix],
) -> Result<Image, AsmFault>
    requires { IsWhole (record { items = items.now; bytes = bytes.now; fixes = fixes.now }) }
    ensures image { IfOk result (λ i. Words (record { items = items.now; bytes = bytes.now; fixes = fixes.now }) i) }
    ensures lawful { IfOk result (λ i. IsLawful i) }
    ensures fits { IfOk result (λ _. HasFewWords (record { items = items.now; bytes = bytes.now; fixes = fixes.now })) }
    ensures fault { IfErr result
        (λ f. IsAsmFault (record { items = items.now; bytes = bytes.now; fixes = fixes.now }) f) }
{
    let plan = plan_of(alloc, items)?;
    let count = count_of(items, &plan);
    if count > MOST_WORDS {
        return Err(AsmFault::CodeTooLong { words: count });
    }
    let start = data_start(count);
    let words = text_of(alloc, items, &plan, start)?;
    let data = data_of(alloc, bytes, fixes, start)?;
    let image = Image::new(words, data, 0, entry_of(&plan) as u32);
    Ok(image.cut_zeros())
}

/// The image of an assembly: its labels are places in the text, its far branches the least that leave the
/// others reach, its address items and fixes have the addresses of the machine, label 0 is the entry, and the
/// zeros at the end of its data are counted.
///
/// `CodeTooLong` comes exactly where the text has more than 2^28 words.
pub fn assemble(alloc: Global, asm: &Asm) -> Result<Image, AsmFault>
    ensures image { IfOk result (λ i. Words asm.now i) }
    ensures lawful { IfOk result (λ i. IsLawful i) }
    ensures fits { IfOk result (λ _. HasFewWords asm.now) }
    ensures fault { IfErr result (λ f. IsAsmFault asm.now f) }
{
    image_of(
        alloc,
        asm.items.as_slice(),
        asm.bytes.as_slice(),
        asm.fixes.as_slice(),
    )
}
