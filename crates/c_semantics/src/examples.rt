//! Small units with what they come to, computed by the definition of the meaning: each clause is a unit of
//! `specs/Examples.antt` with its input and its turns. The functions do nothing.

ghost use Rattle.std.specs.Prelude.{◌≡◌, [], ◌∷◌, IsTrue, IsFalse};
ghost use Rattle.std.specs.List.{list_all, list_any};
ghost use Rattle.c_mean.specs.Behaviour.{Done, Trap, Undefined, More};
ghost use Rattle.c_semantics.specs.Behaves.{behave_c};
ghost use Rattle.c_semantics.specs.Examples.{has_typed_bodies};
ghost use Rattle.c_semantics.specs.Examples as unit;

/// Units that end in each way.
pub fn endings()
    ensures returns_seven { behave_c unit.returns_seven [] 0 ≡ Done [] 7 }
    ensures returns_nothing { behave_c unit.returns_nothing [] 0 ≡ Done [] 0 }
    ensures status_is_a_byte { behave_c unit.status_is_a_byte [] 0 ≡ Done [] 44 }
    ensures puts_a_byte { behave_c unit.puts_a_byte [] 9 ≡ Done (65 ∷ []) 65 }
    ensures gets_a_byte { behave_c unit.gets_a_byte (9 ∷ 8 ∷ []) 9 ≡ Done [] 9 }
    ensures gets_the_end { behave_c unit.gets_the_end [] 9 ≡ Done [] 255 }
    ensures aborts { behave_c unit.aborts [] 9 ≡ Trap (65 ∷ []) 2 }
    ensures exits { behave_c unit.exits [] 9 ≡ Done (65 ∷ []) 3 }
    ensures has_no_turn { behave_c unit.has_no_turn [] 1 ≡ More (65 ∷ []) }
    ensures has_turns_enough { behave_c unit.has_turns_enough [] 2 ≡ Done (65 ∷ 66 ∷ []) 0 }
{}

/// What the operators on integers come to.
pub fn arithmetic()
    ensures sum_overflows { behave_c unit.sum_overflows [] 9 ≡ Trap (65 ∷ []) 3 }
    ensures product_overflows { behave_c unit.product_overflows [] 9 ≡ Trap [] 3 }
    ensures unsigned_wraps { behave_c unit.unsigned_wraps [] 9 ≡ Done [] 1 }
    ensures narrowing_wraps { behave_c unit.narrowing_wraps [] 9 ≡ Done [] 1 }
    ensures increment_overflows { behave_c unit.increment_overflows [] 9 ≡ Trap [] 3 }
    ensures minus_least { behave_c unit.minus_least [] 9 ≡ Trap [] 3 }
    ensures division_by_zero { behave_c unit.zero_divisor [] 9 ≡ Trap [] 1 }
    ensures least_by_minus_one { behave_c unit.least_by_minus_one [] 9 ≡ Trap [] 3 }
    ensures remainder_of_least { behave_c unit.remainder_of_least [] 9 ≡ Trap [] 3 }
    ensures division_truncates { behave_c unit.division_truncates [] 9 ≡ Done [] 253 }
    ensures remainder_has_the_sign { behave_c unit.remainder_has_the_sign [] 9 ≡ Done [] 255 }
    ensures shift_keeps_the_sign { behave_c unit.shift_keeps_the_sign [] 9 ≡ Done [] 252 }
    ensures shift_keeps_low_bits { behave_c unit.shift_keeps_low_bits [] 9 ≡ Done [] 1 }
    ensures unsigned_compares { behave_c unit.unsigned_compares [] 9 ≡ Done [] 1 }
    ensures compound_narrows { behave_c unit.compound_narrows [] 9 ≡ Done [] 200 }
{}

/// The order of evaluation, and what is not evaluated.
pub fn choices()
    ensures and_needs_the_left { behave_c unit.and_needs_the_left [] 9 ≡ Done [] 0 }
    ensures or_needs_the_left { behave_c unit.or_needs_the_left [] 9 ≡ Done [] 1 }
    ensures one_arm_is_chosen { behave_c unit.one_arm_is_chosen [] 9 ≡ Done [] 5 }
    ensures commas_go_on { behave_c unit.commas_go_on [] 9 ≡ Done (65 ∷ 66 ∷ []) 3 }
    ensures left_before_right { behave_c unit.left_before_right [] 9 ≡ Done (65 ∷ 66 ∷ []) 255 }
    ensures step_gives_the_old { behave_c unit.step_gives_the_old [] 9 ≡ Done [] 9 }
    ensures prefix_gives_the_new { behave_c unit.prefix_gives_the_new [] 9 ≡ Done [] 10 }
{}

/// Loops, jumps and calls.
pub fn statements()
    ensures while_goes_round { behave_c unit.while_goes_round [] 6 ≡ Done (65 ∷ 65 ∷ 65 ∷ []) 0 }
    ensures rounds_take_turns { behave_c unit.rounds_take_turns [] 5 ≡ More (65 ∷ 65 ∷ []) }
    ensures do_goes_once { behave_c unit.do_goes_once [] 2 ≡ Done (65 ∷ []) 0 }
    ensures for_steps_and_continues { behave_c unit.for_steps_and_continues [] 9 ≡ Done (0 ∷ 2 ∷ []) 0 }
    ensures switch_falls_through { behave_c unit.switch_falls_through [] 9 ≡ Done (66 ∷ 67 ∷ []) 0 }
    ensures switch_takes_the_default { behave_c unit.switch_takes_the_default [] 9 ≡ Done (65 ∷ []) 0 }
    ensures return_leaves_the_loop { behave_c unit.return_leaves_the_loop [] 9 ≡ Done [] 6 }
    ensures calls_itself { behave_c unit.calls_itself [] 5 ≡ Done [] 24 }
    ensures call_takes_a_turn { behave_c unit.call_takes_a_turn [] 4 ≡ More [] }
{}

/// Pointers, arrays, structures and objects of static storage.
pub fn objects()
    ensures written_through_a_pointer { behave_c unit.written_through_a_pointer [] 9 ≡ Done [] 5 }
    ensures elements_stand_apart { behave_c unit.elements_stand_apart [] 9 ≡ Done [] 12 }
    ensures pointers_have_a_distance { behave_c unit.pointers_have_a_distance [] 9 ≡ Done [] 2 }
    ensures globals_begin { behave_c unit.globals_begin [] 9 ≡ Done [] 1 }
    ensures globals_hold_addresses { behave_c unit.globals_hold_addresses [] 9 ≡ Done [] 7 }
    ensures members_have_places { behave_c unit.members_have_places [] 9 ≡ Done [] 31 }
    ensures structs_are_copied { behave_c unit.structs_are_copied [] 9 ≡ Done [] 3 }
    ensures parameters_are_objects { behave_c unit.parameters_are_objects [] 9 ≡ Done [] 5 }
{}

/// Each of the eleven points at which a run is undefined.
pub fn undefined_points()
    ensures unset_register { behave_c unit.unset_register [] 9 ≡ Undefined }
    ensures unset_cell { behave_c unit.unset_cell [] 9 ≡ Undefined }
    ensures outside_the_object { behave_c unit.outside_the_object [] 9 ≡ Undefined }
    ensures through_null { behave_c unit.through_null [] 9 ≡ Undefined }
    ensures misaligned { behave_c unit.misaligned_access [] 9 ≡ Undefined }
    ensures moved_outside { behave_c unit.moved_outside [] 9 ≡ Undefined }
    ensures null_moved { behave_c unit.null_moved [] 9 ≡ Undefined }
    ensures dead_object { behave_c unit.dead_object [] 9 ≡ Undefined }
    ensures dead_pointer_tested { behave_c unit.dead_pointer_tested [] 9 ≡ Undefined }
    ensures compared_apart { behave_c unit.compared_apart [] 9 ≡ Undefined }
    ensures compared_at_the_end { behave_c unit.compared_at_the_end [] 9 ≡ Undefined }
    ensures shifted_too_far { behave_c unit.shifted_too_far [] 9 ≡ Undefined }
    ensures shifted_below_zero { behave_c unit.shifted_below_zero [] 9 ≡ Undefined }
    ensures literal_written { behave_c unit.literal_written [] 9 ≡ Undefined }
    ensures no_value_used { behave_c unit.no_value_used [] 9 ≡ Undefined }
    ensures no_value_left_alone { behave_c unit.no_value_left_alone [] 9 ≡ Done [] 2 }
    ensures pointer_read_in_part { behave_c unit.pointer_read_in_part [] 9 ≡ Undefined }
    ensures copy_overlaps_itself { behave_c unit.copy_overlaps_itself [] 9 ≡ Undefined }
{}

/// The bodies of all these units are well typed, and those of some others are not.
pub fn typing()
    ensures well_typed { IsTrue (list_all has_typed_bodies unit.units) }
    ensures ill_typed { IsFalse (list_any has_typed_bodies unit.ill_typed_units) }
{}
