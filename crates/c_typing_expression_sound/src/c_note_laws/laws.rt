//! Laws of what is noted, each the contract of a function that does nothing.

ghost use Rattle.c_typing_expression_sound.specs.c_note_laws.Laws.{ExpressionsTakeSteps, SpecifiersTakeSteps, DeclaratorsTakeSteps, StepsAdd};

/// What expressions, specifiers and declarators note: faults, uses, texts, tags, and structs of which no member is
/// known.
pub fn judgements_take_steps()
    ensures expressions { ExpressionsTakeSteps }
    ensures specifiers { SpecifiersTakeSteps }
    ensures declarators { DeclaratorsTakeSteps }
{}

/// The structs, faults and texts that were noted stay as they are, and others are added behind them.
pub fn notes_are_only_added()
    ensures { StepsAdd }
{}
