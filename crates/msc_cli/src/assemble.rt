//! The command `assemble`: an assembly text in, the bytes of its image out.

ghost use Rattle.std.specs.Prelude.{◌≡◌, ◌≢◌, ◌↔◌, ◌≤◌, ◌<◌, length, IfSome, IfErr, IfOk, Some, IsTrue, option_map};
ghost use Rattle.bk_io.specs.Shelf.{is_due, after_call};
ghost use Rattle.call_outcomes.specs.FromFile.{IsCause, file_bytes};
ghost use Rattle.msc_cli.specs.Limits.{most_assembly, assembly_limit};
ghost use Rattle.msc_cli.specs.model.Causes as spec;
ghost use Rattle.alpha_asm.specs.Fault.{HasFewWords};
ghost use Rattle.alpha_items.specs.Words.{Words};
ghost use Rattle.bk_memory.specs.Shortage.{MemoryIsShort};
ghost use Rattle.msc_cli.specs.AssembleText.{IsAssembled, RefusesAssembly, Assembles};
ghost use Rattle.call_outcomes.specs.Output.{file_faults_after, output_faults_after};

use alpha_asm::assemble::{AsmFault, assemble as image_of};
use alpha_isa::image::Image;
use alpha_items::asm::Asm;
use alpha_text::fault::TextFault;
use alpha_text::read::read_asm;
use bk_io::outside::{Files, Sink};
use call_images::write_image;
use call_outcomes::files::read_file;
use call_outcomes::outcome::{Outcome, Which};
use std::alloc::Global;

/// How many bytes of an assembly text are read: one more than it may have.
const ASSEMBLY_LIMIT: u64 = 268_435_457;

/// The outcome where a text is not read as an assembly.
fn outcome_of_text_fault(fault: TextFault) -> Outcome
    ensures { result ≡ spec.outcome_of_text_fault fault }
{
    match fault {
        TextFault::Line { line } => Outcome::BadAsm { line },
        TextFault::Data { counted } => Outcome::Limit {
            which: Which::Data,
            counted,
        },
        TextFault::NoMemory => Outcome::NoMemory,
    }
}

/// Reads an assembly text and writes the image of its assembly.
pub fn assemble<F: Files, O: Sink>(alloc: Global, name: &str, files: &mut F, out: &mut O) -> Outcome
    ensures answer { Assembles (file_bytes (F.told files.old) name.now) result (O.taken out.old) (O.taken out.new) }
    ensures due { IfSome (F.told files.old) (λ shelf. (result ≡ Outcome.FileFault) ↔ IsTrue (is_due shelf name.now)) }
    ensures told { F.told files.new ≡ option_map after_call (F.told files.old) }
    ensures file_count { F.faults files.new ≡ file_faults_after result (F.faults files.old) }
    ensures output_count { O.faults out.new ≡ output_faults_after result (O.faults out.old) }
    ensures reads_none { result ≢ Outcome.InputFault }
{
    match read_file(alloc, files, name, ASSEMBLY_LIMIT) {
        Ok(text) => assemble_text(alloc, text.as_slice(), out),
        Err(outcome) => outcome,
    }
}

/// Writes the image of the assembly whose text this is.
fn assemble_text<O: Sink>(alloc: Global, text: &[u8], out: &mut O) -> Outcome
    ensures answer { Assembles (Some text.now) result (O.taken out.old) (O.taken out.new) }
    ensures count { O.faults out.new ≡ output_faults_after result (O.faults out.old) }
    ensures no_file { result ≢ Outcome.FileFault }
    ensures no_input { result ≢ Outcome.InputFault }
    ensures long { most_assembly < length text.now → result ≡ Outcome.Limit Which.Text assembly_limit }
{
    if text.len() as u64 >= ASSEMBLY_LIMIT {
        return Outcome::Limit {
            which: Which::Text,
            counted: ASSEMBLY_LIMIT,
        };
    }
    match image_of_text(alloc, text) {
        Ok(image) => write_image(alloc, &image, out),
        Err(outcome) => outcome,
    }
}

/// The image of an assembly whose text is not too long.
fn image_of_asm(alloc: Global, asm: &Asm) -> Result<Image, Outcome>
    requires { HasFewWords asm.now }
    ensures image { IfOk result (λ image. Words asm.now image) }
    ensures fault { IfErr result (λ outcome. (outcome ≡ Outcome.NoMemory) × MemoryIsShort) }
{
    match image_of(alloc, asm) {
        Ok(image) => Ok(image),
        Err(AsmFault::NoMemory) => Err(Outcome::NoMemory),
        Err(AsmFault::CodeTooLong { .. }) => unreachable!(),
    }
}

/// The image of the assembly whose text this is. A text within the limit has no more words than an image may have.
#[tactic(auto, using(crate::proofs::AssembleTexts::text_cause, crate::proofs::AssembleTexts::text_no_fault, crate::proofs::AssembleTexts::memory_cause, crate::proofs::AssembleTexts::memory_no_fault, crate::proofs::AssembleTexts::assembled_by, crate::proofs::AssembleTexts::few_words))]
fn image_of_text(alloc: Global, text: &[u8]) -> Result<Image, Outcome>
    requires { length text.now ≤ most_assembly }
    ensures image { IfOk result (λ image. IsAssembled text.now image) }
    ensures cause { IfErr result (IsCause (RefusesAssembly (Some text.now))) }
    ensures no_fault { IfErr result (λ outcome. (outcome ≢ Outcome.FileFault)
        × (outcome ≢ Outcome.InputFault) × (outcome ≢ Outcome.WriteFault)) }
{
    let asm = match read_asm(alloc, text) {
        Ok(asm) => asm,
        Err(fault) => return Err(outcome_of_text_fault(fault)),
    };
    match image_of_asm(alloc, &asm) {
        Ok(image) => Ok(image),
        Err(outcome) => Err(outcome),
    }
}
