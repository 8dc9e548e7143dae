//! The laws of judgements, each the contract of a function that does nothing.

ghost use Rattle.c_typing_expression_sound.specs.c_judgement_laws.Laws.{PrefixIsJudged, BetweenIsJudged, AssignmentIsJudged, ElementIsJudged, ChoiceIsJudged, StepIsJudged, CommaIsJudged, CastIsJudged, SizeIsJudged, SizeOfNameIsJudged, FieldIsJudged, ArrowIsJudged, IntegerIsJudged, CharacterIsJudged, TextIsJudged, NameIsJudged, CallIsJudged};

/// What an operator finds of parts that were judged is well typed, where what it takes is there.
pub fn operators_find_typed_values()
    ensures prefixes { PrefixIsJudged }
    ensures between { BetweenIsJudged }
    ensures assignments { AssignmentIsJudged }
    ensures elements { ElementIsJudged }
    ensures choices { ChoiceIsJudged }
    ensures steps { StepIsJudged }
    ensures commas { CommaIsJudged }
{}

/// So is what casts, `sizeof`, `.` and `->` find.
pub fn casts_and_members_find_typed_values()
    ensures casts { CastIsJudged }
    ensures sizes { SizeIsJudged }
    ensures names { SizeOfNameIsJudged }
    ensures fields { FieldIsJudged }
    ensures arrows { ArrowIsJudged }
{}

/// So is what constants, texts, names and calls find.
pub fn primary_forms_find_typed_values()
    ensures integers { IntegerIsJudged }
    ensures characters { CharacterIsJudged }
    ensures texts { TextIsJudged }
    ensures names { NameIsJudged }
    ensures calls { CallIsJudged }
{}
