//! A law of assembly texts, on a function that does nothing.

ghost use Rattle.std.specs.Prelude.{◌≡◌, ◌≢◌, ◌⊎◌, ◌≤◌, List, length, ℕ, Option, Some};
ghost use Rattle.alpha_items.specs.Assembly.{Assembly, IsWhole};
ghost use Rattle.alpha_text.specs.Texts.{Texts, HasText};
ghost use Rattle.call_outcomes.specs.declared.outcome.Outcome.{Outcome as Answer};
ghost use Rattle.call_outcomes.specs.declared.outcome.Outcome.TheVariants.{Built, FileFault, WriteFault, NoMemory};
ghost use Rattle.msc_cli.specs.Limits.{most_assembly};
ghost use Rattle.msc_cli.specs.AssembleText.{Assembles};

/// The text of a whole assembly, within the limit, is assembled, unless the outside fails or memory is short.
pub fn an_assembly_is_assembled()
    ensures { (text : List ℕ) (a : Assembly) (answer : Answer) (old new : Option (List ℕ)) →
        length text ≤ most_assembly → IsWhole a → HasText a → Texts text a → Assembles (Some text) answer old new →
        answer ≢ FileFault → answer ≢ WriteFault →
        (answer ≡ Built) ⊎ (answer ≡ NoMemory) }
{}
