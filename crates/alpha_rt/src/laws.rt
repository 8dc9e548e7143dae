//! That the routines divide. Each law is the contract of a function that does nothing.

ghost use Rattle.std.specs.Prelude.{◌≡◌, ℕ};
ghost use Rattle.alpha_items.specs.Layout.{label_place};
ghost use Rattle.alpha_rt.specs.Code.{entry};
ghost use Rattle.alpha_rt.specs.Items.{GiveCode, all_items, all_near, entry_label};
ghost use Rattle.alpha_rt.specs.Routine.{Routine, Answers, Divq, Remq, Divqu, Remqu, Divl, Reml, Divlu, Remlu, IsRoutineOperand, routine_outcome};
ghost use Rattle.alpha_rt.specs.Calls.{CodeStands, Divides};

/// The routines on unsigned words leave the quotient and the remainder, or trap with the code 1 where the divisor is 0.
pub fn unsigned_words_divide()
    ensures quotient { Divides Divqu }
    ensures remainder { Divides Remqu }
{}

/// Those on signed words round toward zero, and trap with the code 3 besides where the least number is divided by -1.
pub fn signed_words_divide()
    ensures quotient { Divides Divq }
    ensures remainder { Divides Remq }
{}

/// The same of words that stand for unsigned numbers of 32 bits.
pub fn unsigned_longs_divide()
    ensures quotient { Divides Divlu }
    ensures remainder { Divides Remlu }
{}

/// The same of words that stand for signed numbers of 32 bits.
pub fn signed_longs_divide()
    ensures quotient { Divides Divl }
    ensures remainder { Divides Reml }
{}

/// What a routine answers is an operand of it again: of those on 32 bits, a word that is its own sign extension.
pub fn answers_are_operands()
    ensures { (r : Routine) (a b word : ℕ) → IsRoutineOperand r a → IsRoutineOperand r b → routine_outcome r a b ≡ Answers word →
        IsRoutineOperand r word }
{}

/// The items of the routines give their code wherever they stand in a text, whose words stand for its instructions.
/// The first eight labels are the entries.
pub fn items_give_code()
    ensures code { GiveCode }
    ensures words { CodeStands }
    ensures entries { (r : Routine) → label_place all_items all_near (entry_label r) ≡ entry r }
{}
