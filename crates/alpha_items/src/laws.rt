//! Laws of assemblies that crates above rest on. Each is the contract of a function that does nothing.

ghost use Rattle.std.specs.Prelude.{◌≡◌, List, Bool};
ghost use Rattle.alpha_isa.specs.Program.{Program};
ghost use Rattle.alpha_items.specs.declared.item.AsmItem.{AsmItem};
ghost use Rattle.alpha_items.specs.Assembly.{Assembly, IsWhole};
ghost use Rattle.alpha_items.specs.Layout.{IsLeastFar};
ghost use Rattle.alpha_items.specs.Words.{Words};

/// Each text has one least list of far branches, so an assembly has one image at most.
pub fn assembly_is_unique()
    ensures far { (items : List AsmItem) (far other : List Bool) →
        IsLeastFar items far → IsLeastFar items other → far ≡ other }
    ensures image { (a : Assembly) (p q : Program) → Words a p → Words a q → p ≡ q }
{}

/// Each text has a least list of far branches.
pub fn least_far_branches_exist()
    ensures { (items : List AsmItem) → (far : List Bool) × IsLeastFar items far }
{}
