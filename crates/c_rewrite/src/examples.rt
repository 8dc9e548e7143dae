//! Expressions at the edges of the rules with what they become, computed by the definitions of the rules
//! (`specs/Examples.antt`). The functions do nothing.

ghost use Rattle.std.specs.Prelude.{◌≡◌};
ghost use Rattle.c_tree.specs.declared.expressions.BinaryOp.TheVariants.{LogicalAnd, LogicalOr, Or, Xor, ShiftLeft, ShiftRight, Add, Subtract, Multiply, Divide};
ghost use Rattle.c_typed_tree.specs.Expressions.{Number, Convert};
ghost use Rattle.c_rewrite_rules.specs.Rules.{folded, simplified, pruned};
ghost use Rattle.c_rewrite.specs.Rewritten.{up_by, rewritten};
ghost use Rattle.c_rewrite.specs.Examples as it;

/// Operators and conversions over literals.
pub fn folding()
    ensures from_the_leaves { up_by folded it.sum_of_product ≡ it.number 14 }
    ensures one_level { folded it.sum_of_product ≡ it.sum_of_product }
    ensures overflow_stays { folded it.overflowing ≡ it.overflowing }
    ensures unsigned_wraps { folded it.wrapping ≡ Number it.unsigned_type 1 }
    ensures division_by_zero_stays { folded it.by_zero ≡ it.by_zero }
    ensures undefined_stays { folded it.literal_shift ≡ it.literal_shift }
    ensures cast_narrows { folded it.narrowed ≡ Number it.char_type 44 }
    ensures commas { folded it.literal_commas ≡ it.number 2 }
    ensures choice { folded it.literal_choice ≡ it.number 2 }
    ensures literal_stays { folded (it.number 3) ≡ it.number 3 }
{}

/// Operators that leave an operand as it is.
pub fn neutral_operands()
    ensures plus_zero { simplified it.locals (it.with_right Add it.call 0) ≡ it.call }
    ensures zero_plus { simplified it.locals (it.with_left Add 0 it.call) ≡ it.call }
    ensures minus_zero { simplified it.locals (it.with_right Subtract it.i 0) ≡ it.i }
    ensures zero_minus_stays { simplified it.locals (it.with_left Subtract 0 it.i) ≡ it.with_left Subtract 0 it.i }
    ensures times_one { simplified it.locals (it.with_right Multiply it.i 1) ≡ it.i }
    ensures one_times { simplified it.locals (it.with_left Multiply 1 it.i) ≡ it.i }
    ensures or_zero { simplified it.locals (it.with_right Or it.i 0) ≡ it.i }
    ensures zero_or_stays { simplified it.locals (it.with_left Or 0 it.i) ≡ it.with_left Or 0 it.i }
    ensures xor_zero { simplified it.locals (it.with_right Xor it.i 0) ≡ it.i }
    ensures left_by_zero { simplified it.locals (it.with_right ShiftLeft it.i 0) ≡ it.i }
    ensures right_by_zero { simplified it.locals (it.with_right ShiftRight it.i 0) ≡ it.i }
    ensures by_one_stays { simplified it.locals (it.with_right Divide it.i 1) ≡ it.with_right Divide it.i 1 }
    ensures plus_one_stays { simplified it.locals (it.with_right Add it.i 1) ≡ it.with_right Add it.i 1 }
{}

/// Products by 0.
pub fn products_by_zero()
    ensures right { simplified it.locals (it.with_right Multiply it.i 0) ≡ it.number 0 }
    ensures left { simplified it.locals (it.with_left Multiply 0 it.i) ≡ it.number 0 }
    ensures unsigned_sum { simplified it.locals (it.unsigned_by_zero it.unsigned_sum) ≡ Number it.unsigned_type 0 }
    ensures call_stays { simplified it.locals (it.with_right Multiply it.call 0) ≡ it.with_right Multiply it.call 0 }
    ensures assignment_stays { simplified it.locals (it.with_right Multiply it.assigned_local 0)
        ≡ it.with_right Multiply it.assigned_local 0 }
    ensures step_stays { simplified it.locals (it.with_left Multiply 0 it.step) ≡ it.with_left Multiply 0 it.step }
    ensures memory_stays { simplified it.locals (it.with_right Multiply it.m 0) ≡ it.with_right Multiply it.m 0 }
    ensures global_stays { simplified it.locals (it.with_right Multiply it.g 0) ≡ it.with_right Multiply it.g 0 }
    ensures load_stays { simplified it.locals (it.with_right Multiply it.through_pointer 0)
        ≡ it.with_right Multiply it.through_pointer 0 }
    ensures signed_sum_stays { simplified it.locals (it.with_left Multiply 0 it.signed_sum)
        ≡ it.with_left Multiply 0 it.signed_sum }
    ensures quotient_stays { simplified it.locals (it.with_left Multiply 0 it.local_quotient)
        ≡ it.with_left Multiply 0 it.local_quotient }
{}

/// Conversions.
pub fn conversions()
    ensures to_its_own_type { simplified it.locals (Convert it.int it.i) ≡ it.i }
    ensures widening_stays { simplified it.locals (Convert it.long it.i) ≡ Convert it.long it.i }
    ensures through_a_wide_one { simplified it.locals (Convert it.char_type (Convert it.long it.i)) ≡ Convert it.char_type it.i }
    ensures through_one_with_all_values { simplified it.locals (Convert it.long (Convert it.int it.c_))
        ≡ Convert it.long it.c_ }
    ensures narrowing_between_stays { simplified it.locals (Convert it.long (Convert it.char_type it.i))
        ≡ Convert it.long (Convert it.char_type it.i) }
    ensures sign_between_stays { simplified it.locals (Convert it.long (Convert it.unsigned_type it.i))
        ≡ Convert it.long (Convert it.unsigned_type it.i) }
{}

/// Arms that a literal chooses.
pub fn arms()
    ensures first_arm { pruned it.literal_choice ≡ it.number 2 }
    ensures and_zero { pruned (it.with_left LogicalAnd 0 it.call) ≡ it.number 0 }
    ensures and_other { pruned (it.with_left LogicalAnd 2 it.i) ≡ it.truth_of_i }
    ensures or_other { pruned (it.with_left LogicalOr 2 it.call) ≡ it.number 1 }
    ensures or_zero { pruned (it.with_left LogicalOr 0 it.i) ≡ it.truth_of_i }
    ensures right_literal_stays { pruned (it.with_right LogicalAnd it.i 0) ≡ it.with_right LogicalAnd it.i 0 }
    ensures not_alone { pruned it.not_zero_chooses ≡ it.not_zero_chooses }
    ensures not_after_folding { rewritten it.locals it.not_zero_chooses ≡ it.i }
{}
