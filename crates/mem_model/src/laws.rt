//! Laws of the memory and of the world of runs, each the contract of a function that does nothing.

ghost use Rattle.std.specs.Prelude.{ℕ, Bool, List};
ghost use Rattle.mem_model.specs.Memory.{Memory};
ghost use Rattle.mem_model.specs.Laws.{PutChangesCells, PutGivesRow, PutKeepsRows, PutKeepsLoads, StorePuts, CopyPuts, InitPuts, ChangesKeepFaults, LoadTells, LoadsNumber, LoadsPointer, LoadsNull, PartsAreNoNumber, CopyGivesCells, CopyGivesLoads, NoObjectPast, EndChanges, BeginChanges, BeginsChange, EndsChange};
ghost use Rattle.mem_model.specs.PointerLaws.{PlusTwice, MinusUndoesPlus, PlusUndoesMinus, ChangesKeepPointers};
ghost use Rattle.mem_model.specs.RelatedLaws.{RowsAreAsLong, RowsHaveParts, RowsAreRead, ValuesHaveRows, RowsAreWritten, FreshRows, NamesGrow, ValuesStay};
ghost use Rattle.mem_model.specs.RelatedMemoryLaws.{LoadsCorrespond, StoresCorrespond, CopiesCorrespond, FirstBegins, FirstEnds, SecondBegins, SecondEnds, MovesCorrespond, AnswersCorrespond};
ghost use Rattle.mem_model.specs.WorldLaws.{BytesAreTaken, NoneIsTaken, MemoriesAreHidden, EndsAsItself, EndsAsThrough, TurnsAreTaken, CallsAreMetered};
ghost use Rattle.mem_model.specs.Ending.{Evaluation, GivesAs};

/// What was stored is loaded back: numbers by their width, pointers whole and never in part, and zeros as null.
pub fn stores_load_back()
    ensures numbers { LoadsNumber }
    ensures pointers { LoadsPointer }
    ensures null { LoadsNull }
    ensures parts { PartsAreNoNumber }
{}

/// A row of cells that is put stands at its place in one object, and what lies apart is as before.
pub fn puts_change_a_row()
    ensures cells { PutChangesCells }
    ensures row { PutGivesRow }
    ensures rows { PutKeepsRows }
    ensures loads { PutKeepsLoads }
{}

/// A store puts the row of its value, a copy that of its source, and an initialisation its bytes.
pub fn accesses_put_rows()
    ensures stores { StorePuts }
    ensures copies { CopyPuts }
    ensures inits { InitPuts }
{}

/// A copy gives its target the cells of its source, whatever they hold, so loads there read the same.
pub fn copies_give_cells()
    ensures cells { CopyGivesCells }
    ensures loads { CopyGivesLoads }
{}

/// A load that gives a value had no fault.
pub fn loads_tell()
    ensures { LoadTells }
{}

/// Where one object has other cells, each access has the fault that it had, and the operators on pointers
/// answer the same.
pub fn changes_keep_faults()
    ensures faults { ChangesKeepFaults }
    ensures pointers { ChangesKeepPointers }
{}

/// There is no object past the list, new objects have the next numbers, and objects that begin or end leave the others.
pub fn objects_begin_and_end()
    ensures past { NoObjectPast }
    ensures begins { (m : Memory) (size : ℕ) (writable : Bool) → BeginChanges m size writable }
    ensures ends { (m : Memory) (id : ℕ) → EndChanges m id }
    ensures begin_some { (m : Memory) (sizes : List ℕ) → BeginsChange m sizes }
    ensures end_some { (m : Memory) (first count : ℕ) → EndsChange m first count }
{}

/// Moving a pointer twice is moving it by the sum, and a distance undoes a move.
pub fn pointers_move()
    ensures twice { PlusTwice }
    ensures distance { MinusUndoesPlus }
    ensures back { PlusUndoesMinus }
{}

/// In a memory whose objects have other numbers, what corresponds is read, written and kept so.
pub fn rows_correspond()
    ensures as_long { RowsAreAsLong }
    ensures parts { RowsHaveParts }
    ensures read { RowsAreRead }
    ensures written { RowsAreWritten }
    ensures values { ValuesHaveRows }
    ensures fresh { FreshRows }
    ensures names { NamesGrow }
    ensures more { ValuesStay }
{}

/// What a memory does, one that stands for it can do, and stands for it again.
pub fn memories_correspond()
    ensures loads { LoadsCorrespond }
    ensures stores { StoresCorrespond }
    ensures copies { CopiesCorrespond }
    ensures first_begins { FirstBegins }
    ensures first_ends { FirstEnds }
    ensures second_begins { SecondBegins }
    ensures second_ends { SecondEnds }
    ensures moves { MovesCorrespond }
    ensures answers { AnswersCorrespond }
{}

/// A byte that is taken is the first of the input, at its end there is none, and another memory does not show.
pub fn bytes_are_taken()
    ensures byte { BytesAreTaken }
    ensures end { NoneIsTaken }
    ensures memory { MemoriesAreHidden }
{}

/// Each ending is its own, and that an ending is another's goes through a third.
pub fn endings_go_through()
    ensures own { EndsAsItself }
    ensures through { EndsAsThrough }
{}

/// A turn that is taken is taken with more turns too.
pub fn turns_are_taken()
    ensures { TurnsAreTaken }
{}

/// A call raises the room and at most the peak, and gives the room back.
pub fn calls_are_metered()
    ensures { CallsAreMetered }
{}

/// That an evaluation gives what another one gives goes through a third.
pub fn evaluations_go_through<A, S>()
    ensures { (a b c : Evaluation A S) → GivesAs c b → GivesAs b a → GivesAs c a }
{}
