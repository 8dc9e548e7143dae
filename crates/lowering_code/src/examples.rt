//! The code of the small units of the C meaning, run by the definition of the meaning over virtual registers: it ends
//! as the units do. The functions do nothing.

ghost use Rattle.std.specs.Prelude.{◌≡◌, [], ◌∷◌};
ghost use Rattle.c_mean.specs.Behaviour.{Done, Trap, More};
ghost use Rattle.c_semantics.specs.Examples as unit;
ghost use Rattle.lowering_code.specs.Units.{unit_behaviour};

/// Units that end in each way.
pub fn endings()
    ensures returns_seven { unit_behaviour unit.returns_seven [] 0 300 ≡ Done [] 7 }
    ensures returns_nothing { unit_behaviour unit.returns_nothing [] 0 300 ≡ Done [] 0 }
    ensures status_is_a_byte { unit_behaviour unit.status_is_a_byte [] 0 300 ≡ Done [] 44 }
    ensures puts_a_byte { unit_behaviour unit.puts_a_byte [] 9 300 ≡ Done (65 ∷ []) 65 }
    ensures gets_a_byte { unit_behaviour unit.gets_a_byte (9 ∷ 8 ∷ []) 9 300 ≡ Done [] 9 }
    ensures gets_the_end { unit_behaviour unit.gets_the_end [] 9 300 ≡ Done [] 255 }
    ensures aborts { unit_behaviour unit.aborts [] 9 300 ≡ Trap (65 ∷ []) 2 }
    ensures exits { unit_behaviour unit.exits [] 9 300 ≡ Done (65 ∷ []) 3 }
    ensures has_no_turn { unit_behaviour unit.has_no_turn [] 1 300 ≡ More (65 ∷ []) }
    ensures has_turns_enough { unit_behaviour unit.has_turns_enough [] 2 300 ≡ Done (65 ∷ 66 ∷ []) 0 }
{}

/// What the operators on integers come to.
pub fn arithmetic()
    ensures sum_overflows { unit_behaviour unit.sum_overflows [] 9 300 ≡ Trap (65 ∷ []) 3 }
    ensures product_overflows { unit_behaviour unit.product_overflows [] 9 300 ≡ Trap [] 3 }
    ensures unsigned_wraps { unit_behaviour unit.unsigned_wraps [] 9 300 ≡ Done [] 1 }
    ensures narrowing_wraps { unit_behaviour unit.narrowing_wraps [] 9 300 ≡ Done [] 1 }
    ensures increment_overflows { unit_behaviour unit.increment_overflows [] 9 300 ≡ Trap [] 3 }
    ensures minus_least { unit_behaviour unit.minus_least [] 9 300 ≡ Trap [] 3 }
    ensures division_by_zero { unit_behaviour unit.zero_divisor [] 9 300 ≡ Trap [] 1 }
    ensures least_by_minus_one { unit_behaviour unit.least_by_minus_one [] 9 300 ≡ Trap [] 3 }
    ensures remainder_of_least { unit_behaviour unit.remainder_of_least [] 9 300 ≡ Trap [] 3 }
    ensures division_truncates { unit_behaviour unit.division_truncates [] 9 300 ≡ Done [] 253 }
    ensures remainder_has_the_sign { unit_behaviour unit.remainder_has_the_sign [] 9 300 ≡ Done [] 255 }
    ensures shift_keeps_the_sign { unit_behaviour unit.shift_keeps_the_sign [] 9 300 ≡ Done [] 252 }
    ensures shift_keeps_low_bits { unit_behaviour unit.shift_keeps_low_bits [] 9 300 ≡ Done [] 1 }
    ensures unsigned_compares { unit_behaviour unit.unsigned_compares [] 9 300 ≡ Done [] 1 }
    ensures compound_narrows { unit_behaviour unit.compound_narrows [] 9 300 ≡ Done [] 200 }
{}

/// The order of evaluation, and what is not evaluated.
pub fn choices()
    ensures and_needs_the_left { unit_behaviour unit.and_needs_the_left [] 9 300 ≡ Done [] 0 }
    ensures or_needs_the_left { unit_behaviour unit.or_needs_the_left [] 9 300 ≡ Done [] 1 }
    ensures one_arm_is_chosen { unit_behaviour unit.one_arm_is_chosen [] 9 300 ≡ Done [] 5 }
    ensures commas_go_on { unit_behaviour unit.commas_go_on [] 9 300 ≡ Done (65 ∷ 66 ∷ []) 3 }
    ensures left_before_right { unit_behaviour unit.left_before_right [] 9 300 ≡ Done (65 ∷ 66 ∷ []) 255 }
    ensures step_gives_the_old { unit_behaviour unit.step_gives_the_old [] 9 300 ≡ Done [] 9 }
    ensures prefix_gives_the_new { unit_behaviour unit.prefix_gives_the_new [] 9 300 ≡ Done [] 10 }
{}

/// Loops, jumps and calls.
pub fn statements()
    ensures while_goes_round { unit_behaviour unit.while_goes_round [] 6 300 ≡ Done (65 ∷ 65 ∷ 65 ∷ []) 0 }
    ensures rounds_take_turns { unit_behaviour unit.rounds_take_turns [] 5 300 ≡ More (65 ∷ 65 ∷ []) }
    ensures do_goes_once { unit_behaviour unit.do_goes_once [] 2 300 ≡ Done (65 ∷ []) 0 }
    ensures for_steps_and_continues { unit_behaviour unit.for_steps_and_continues [] 9 300 ≡ Done (0 ∷ 2 ∷ []) 0 }
    ensures switch_falls_through { unit_behaviour unit.switch_falls_through [] 9 300 ≡ Done (66 ∷ 67 ∷ []) 0 }
    ensures switch_takes_the_default { unit_behaviour unit.switch_takes_the_default [] 9 300 ≡ Done (65 ∷ []) 0 }
    ensures return_leaves_the_loop { unit_behaviour unit.return_leaves_the_loop [] 9 300 ≡ Done [] 6 }
    ensures calls_itself { unit_behaviour unit.calls_itself [] 5 300 ≡ Done [] 24 }
    ensures call_takes_a_turn { unit_behaviour unit.call_takes_a_turn [] 4 300 ≡ More [] }
{}

/// Pointers, arrays, structures and objects of static storage.
pub fn objects()
    ensures written_through_a_pointer { unit_behaviour unit.written_through_a_pointer [] 9 300 ≡ Done [] 5 }
    ensures elements_stand_apart { unit_behaviour unit.elements_stand_apart [] 9 300 ≡ Done [] 12 }
    ensures pointers_have_a_distance { unit_behaviour unit.pointers_have_a_distance [] 9 300 ≡ Done [] 2 }
    ensures globals_begin { unit_behaviour unit.globals_begin [] 9 300 ≡ Done [] 1 }
    ensures globals_hold_addresses { unit_behaviour unit.globals_hold_addresses [] 9 300 ≡ Done [] 7 }
    ensures members_have_places { unit_behaviour unit.members_have_places [] 9 300 ≡ Done [] 31 }
    ensures structs_are_copied { unit_behaviour unit.structs_are_copied [] 9 300 ≡ Done [] 3 }
    ensures parameters_are_objects { unit_behaviour unit.parameters_are_objects [] 9 300 ≡ Done [] 5 }
{}

/// A call without a value, which is not used.
pub fn unused_values()
    ensures no_value_left_alone { unit_behaviour unit.no_value_left_alone [] 9 300 ≡ Done [] 2 }
{}
