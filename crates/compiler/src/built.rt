//! What is made of a text, and how much of it is kept.

ghost use Rattle.std.specs.Prelude.{◌≡◌};
ghost use Rattle.compiler.specs.model.Parts.{IsKept, PartsAreWhole, parts_of_built};

use alloc_model::allocation::Allocation;
use alpha_isa::image::Image;
use alpha_items::asm::Asm;
use c_tree::TranslationUnit;
use c_typed_tree::c_lawful_unit::LawfulUnit;
use suifvm_ir::program::VmProgram;
use temp_ir::program::TempProgram;

/// What is made of a text, pass by pass.
#[derive(Drop)]
pub struct Built {
    /// The tree of the text (C99 6.9).
    pub unit: TranslationUnit,
    /// Its typed unit, which is lawful.
    pub typed: LawfulUnit,
    /// That unit as the three rules rewrite it.
    pub rewritten: LawfulUnit,
    /// The code of the rewritten unit over virtual registers, whose instructions read origins in place of copies.
    pub copied: VmProgram,
    /// That code without dead instructions, whose jumps go on past those that are only instructions.
    pub vm: VmProgram,
    /// The Alpha code over temporaries, whose functions have no block to which no path leads and no critical edge.
    pub temps: TempProgram,
    /// Where the temporaries of each function live.
    pub allocations: Vec<Allocation>,
    /// The whole assembly.
    pub asm: Asm,
    /// The image of it.
    pub image: Image,
}

/// What is wanted of a text.
#[derive(Clone, Copy, Debug, PartialEq, Eq)]
pub(crate) enum WantedParts {
    /// All that is made, pass by pass.
    Everything,
    /// The image alone.
    Image,
}

impl WantedParts {
    /// What no pass reads any more is kept where everything is wanted, and else let go.
    pub(crate) fn keep<T: Drop>(self, value: T) -> Option<T>
        ensures { IsKept self value result }
    {
        match self {
            WantedParts::Everything => Some(value),
            WantedParts::Image => None,
        }
    }
}

/// What a pass made, with what it was given, as far as that was kept.
#[derive(Drop)]
pub(crate) struct PassParts<A, B> {
    pub(crate) given: Option<A>,
    pub(crate) made: B,
}

/// The code of a unit over temporaries, with what was made on the way to it, as far as that was kept.
#[derive(Drop)]
pub(crate) struct CodeParts {
    pub(crate) typed: Option<LawfulUnit>,
    pub(crate) rewritten: Option<LawfulUnit>,
    pub(crate) copied: Option<VmProgram>,
    pub(crate) vm: Option<VmProgram>,
    pub(crate) temps: TempProgram,
}

/// The assembly of a program, with the program and the allocations of its functions, as far as they were kept.
#[derive(Drop)]
pub(crate) struct AssemblyParts {
    pub(crate) temps: Option<TempProgram>,
    pub(crate) allocations: Option<Vec<Allocation>>,
    pub(crate) asm: Asm,
}

/// What was made of a text, as far as it was kept.
#[derive(Drop)]
pub(crate) struct Parts {
    pub(crate) unit: Option<TranslationUnit>,
    pub(crate) typed: Option<LawfulUnit>,
    pub(crate) rewritten: Option<LawfulUnit>,
    pub(crate) copied: Option<VmProgram>,
    pub(crate) vm: Option<VmProgram>,
    pub(crate) temps: Option<TempProgram>,
    pub(crate) allocations: Option<Vec<Allocation>>,
    pub(crate) asm: Option<Asm>,
    pub(crate) image: Image,
}

impl Parts {
    /// All that was made, where all was kept.
    pub(crate) fn into_built(self) -> Built
        requires { PartsAreWhole self }
        ensures { self ≡ parts_of_built result }
    {
        let Parts {
            unit,
            typed,
            rewritten,
            copied,
            vm,
            temps,
            allocations,
            asm,
            image,
        } = self;
        Built {
            unit: unit.unwrap(),
            typed: typed.unwrap(),
            rewritten: rewritten.unwrap(),
            copied: copied.unwrap(),
            vm: vm.unwrap(),
            temps: temps.unwrap(),
            allocations: allocations.unwrap(),
            asm: asm.unwrap(),
            image,
        }
    }
}
