//! The laws of layout, each the contract of a function that does nothing.

ghost use Rattle.c_typing_struct_layout.specs.c_layout_laws.Laws.{TypesAreAligned, StructsAreMultiples, MembersLieWithin};

/// An object's alignment is 1, 2, 4 or 8, a struct's size is a multiple of its alignment, and each member lies within
/// its struct (C99 6.7.2.1).
pub fn structs_are_laid_out()
    ensures alignments { TypesAreAligned }
    ensures sizes { StructsAreMultiples }
    ensures members { MembersLieWithin }
{}
