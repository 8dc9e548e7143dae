//! The passes, one after the other.

ghost use Rattle.std.specs.Prelude.{◌≡◌, ℕ, ◌≤◌, List, length, IfOk, IfErr};
ghost use Rattle.bk_memory.specs.Shortage.{MemoryIsShort};
ghost use Rattle.c_lexer.specs.Limits.{text_limit};
ghost use Rattle.alpha_isa.specs.Program as image;
ghost use Rattle.alpha_items.specs.Words.{Words};
ghost use Rattle.alpha_asm.specs.Fault.{HasFewWords};
ghost use Rattle.compiler_theorem.specs.Correct.{IsCorrectImage};
ghost use Rattle.compiler_front_end.specs.declared.fault.CompileFault.TheVariants.{NoMemory};
ghost use Rattle.compiler_front_end.specs.Units.{IsUnitWithin, HasNoUnit};
ghost use Rattle.compiler.specs.Made.{Made};
ghost use Rattle.compiler.specs.Images.{IsImageOfText};
ghost use Rattle.compiler.specs.model.Parts.{UnitHasText, ArePartsOf};

use crate::assembly::assemble_by_choice;
use crate::built::{AssemblyParts, Built, CodeParts, Parts, WantedParts};
use crate::code::code_of;
use crate::laws::{assemblies_are_made, code_can_be_assembled, images_are_correct};
use alpha_asm::assemble::{AsmFault, assemble};
use alpha_isa::image::Image;
use alpha_items::asm::Asm;
use call_words::compile_options::{Allocator, Options};
use compiler_front_end::{CompileFault, FrontEnd, read_unit};
use image_code_bounds::program_words::laws::light_texts_fit_images;
use std::alloc::Global;

/// The image of a C text of at most 4,194,304 bytes, with what was made on the way to it. On each stack, the image does
/// what the text means on every input of bytes on which that is defined and has room on the stack, and it ends in few
/// steps by the turns that the text takes.
///
/// # Errors
///
/// In this order: `Lex` where no token begins at an offset; the limit of the nesting; `Syntax` where the tokens have no
/// reading; `Typing` where the unit has faults, with the first; the limits of the weight and of the data; and
/// [`CompileFault::NoMemory`], also for a tree that is too high. The text of an image is never too long.
pub fn compile(alloc: Global, text: &[u8], options: &Options) -> Result<Built, CompileFault>
    requires { length text.now ≤ text_limit }
    ensures correct { IfOk result (λ b. IsCorrectImage text.now b.image) }
    ensures made { IfOk result (Made text.now options.now.allocator) }
    ensures fault { IfErr result (HasNoUnit text.now) }
{
    let front = read_unit(alloc, text)?;
    let parts = make(alloc, front, options.allocator, WantedParts::Everything)?;
    images_are_correct();
    Ok(parts.into_built())
}

/// The image that [`compile`] makes of a C text of at most 4,194,304 bytes, and nothing else: the text, and what is made
/// on the way, are let go as soon as no pass reads them any more.
///
/// # Errors
///
/// Those of [`compile`], in the same order.
pub fn compile_image(alloc: Global, text: Vec<u8>, options: &Options) -> Result<Image, CompileFault>
    requires { length text.items ≤ text_limit }
    ensures correct { IfOk result (IsCorrectImage text.items) }
    ensures made { IfOk result (IsImageOfText text.items options.now.allocator) }
    ensures fault { IfErr result (HasNoUnit text.items) }
{
    let front = read_unit(alloc, text.as_slice())?;
    drop(text);
    let parts = make(alloc, front, options.allocator, WantedParts::Image)?;
    images_are_correct();
    Ok(parts.image)
}

/// Makes one pass after the other of the unit of a text. What no pass reads any more is kept where it is wanted.
fn make(
    alloc: Global,
    front: FrontEnd,
    allocator: Allocator,
    wanted: WantedParts,
) -> Result<Parts, CompileFault>
    requires { UnitHasText front.unit front.typed.unit }
    ensures made { IfOk result (λ parts. (text : List ℕ) → IsUnitWithin text front.unit front.typed.unit →
        ArePartsOf text allocator wanted parts) }
    ensures fault { IfErr result (λ f. (f ≡ NoMemory) × MemoryIsShort) }
{
    let FrontEnd { unit, typed } = front;
    let unit = wanted.keep(unit);
    let CodeParts {
        typed,
        rewritten,
        copied,
        vm,
        temps,
    } = code_of(alloc, typed, wanted)?;
    code_can_be_assembled();
    let AssemblyParts {
        temps,
        allocations,
        asm,
    } = assemble_by_choice(alloc, temps, allocator, wanted)?;
    assemblies_are_made();
    let image = image_of(alloc, &asm)?;
    let asm = wanted.keep(asm);
    Ok(Parts {
        unit,
        typed,
        rewritten,
        copied,
        vm,
        temps,
        allocations,
        asm,
        image,
    })
}

/// The image of an assembly whose text is not too long.
fn image_of(alloc: Global, asm: &Asm) -> Result<Image, CompileFault>
    requires { HasFewWords asm.now }
    ensures words { IfOk result (λ i. Words asm.now i) }
    ensures lawful { IfOk result (λ i. image.IsLawful i) }
    ensures fault { IfErr result (λ f. (f ≡ NoMemory) × MemoryIsShort) }
{
    light_texts_fit_images();
    match assemble(alloc, asm) {
        Ok(image) => Ok(image),
        Err(AsmFault::NoMemory) => Err(CompileFault::NoMemory),
        Err(AsmFault::CodeTooLong { .. }) => unreachable!(),
    }
}
