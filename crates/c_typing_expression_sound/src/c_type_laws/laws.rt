//! The laws of rules, each the contract of a function that does nothing.

ghost use Rattle.c_typing_expression_sound.specs.c_type_laws.Laws.{UnaryIsTyped, BinaryIsTyped, AssignmentIsTyped, ChoiceIsTyped, StepIsTyped, CommaIsTyped, ElementIsTyped, FieldIsTyped, ArrowIsTyped, CastIsTyped, SizeIsTyped, SizeOfNameIsTyped, TakenIsTyped, ConditionTreeIsTyped, SwitchedIsTyped, DecayedIsTyped, IntegerIsTyped, CharacterIsTyped, EnumeratorIsTyped, LocalIsTyped, ObjectIsTyped, CallIsTyped, LabelIsWord, GivenIsWord, NextIsWord};

/// What an operator gives of operands that are well typed is well typed: it has its type, its operands were converted
/// as its rule asks, and where it is a place, so is its tree.
pub fn operators_give_typed_values()
    ensures unary { UnaryIsTyped }
    ensures binary { BinaryIsTyped }
    ensures assignments { AssignmentIsTyped }
    ensures choices { ChoiceIsTyped }
    ensures steps { StepIsTyped }
    ensures commas { CommaIsTyped }
{}

/// So are elements of arrays and members of structs.
pub fn parts_are_typed()
    ensures elements { ElementIsTyped }
    ensures fields { FieldIsTyped }
    ensures arrows { ArrowIsTyped }
{}

/// So are casts and sizes, and a value where one of a type is wanted has that type.
pub fn conversions_give_typed_values()
    ensures casts { CastIsTyped }
    ensures sizes { SizeIsTyped }
    ensures names { SizeOfNameIsTyped }
    ensures values { TakenIsTyped }
    ensures conditions { ConditionTreeIsTyped }
    ensures switches { SwitchedIsTyped }
    ensures decay { DecayedIsTyped }
{}

/// So are constants, names of what is there, and calls of functions with arguments of the types of their parameters.
pub fn primary_values_are_typed()
    ensures integers { IntegerIsTyped }
    ensures characters { CharacterIsTyped }
    ensures enumerators { EnumeratorIsTyped }
    ensures locals { LocalIsTyped }
    ensures objects { ObjectIsTyped }
    ensures calls { CallIsTyped }
{}

/// Labels are words of the type of their `switch`, and enumeration constants words of the type `int`.
pub fn constants_are_words()
    ensures labels { LabelIsWord }
    ensures enumerators { GivenIsWord }
    ensures successors { NextIsWord }
{}
