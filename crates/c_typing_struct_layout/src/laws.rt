//! The law of layouts, on a function that does nothing.

ghost use Rattle.std.specs.Prelude.{◌≡◌, ◌+◌, List, ℕ, Some};
ghost use Rattle.c_typed_tree.specs.declared.types.StructDef.{StructDef};
ghost use Rattle.c_typed_tree.specs.Layout.{IsLaidOut};
ghost use Rattle.c_typed_tree.specs.Lawful.{greatest_depth};
ghost use Rattle.c_typing_struct_layout.specs.declared.fields.Field.{Field};
ghost use Rattle.c_typing_struct_layout.specs.StructLayout.{struct_of};

/// A struct that is laid out lies as a lawful one does, and is one deeper than its deepest member.
pub fn structs_are_laid_out()
    ensures layout { (ds : List StructDef) (tag : List ℕ) (fs : List Field) (d : StructDef) → struct_of ds tag fs ≡
        Some d → IsLaidOut ds d }
    ensures depth { (ds : List StructDef) (tag : List ℕ) (fs : List Field) (d : StructDef) → struct_of ds tag fs ≡
        Some d → d.depth ≡ 1 + greatest_depth ds d.members }
{}
