//! The laws of the forms, each the contract of a function that does nothing.

ghost use Rattle.suifvm_ir.specs.declared.insn.VmUnaryOp.TheVariants.{Move, Negate, Complement};
ghost use Rattle.suifvm_ir.specs.declared.insn.VmBinaryOp.TheVariants.{Add, Subtract, Multiply, Divide, Remainder, And, Or, ExclusiveOr};
ghost use Rattle.suifvm_ir.specs.declared.insn.ShiftOp.TheVariants.{ArithmeticRight, Left, LogicalRight};
ghost use Rattle.suifvm_ir.specs.declared.insn.CompareOp.TheVariants.{Equal, NotEqual, Less, LessOrEqual};
ghost use Rattle.selection_forms.specs.alpha_forms.Laws.{ConstantsAreMade, RecipesHaveLengths, ConstantsAreShort, LoadsAreDone, StoresAreDone, UnaryIsDone, BinaryIsDone, ShiftIsDone, CompareIsDone, ConversionsAreDone, ConstantsAreLoaded, AddressesAreLoaded, BranchesAreTaken};

/// The code of a constant puts the word into its temporary and changes nothing else, in five instructions at most.
pub fn constants_are_made()
    ensures made { ConstantsAreMade }
    ensures lengths { RecipesHaveLengths }
    ensures short { ConstantsAreShort }
{}

/// The code of a load or store does what the access does over registers, wherever that has a meaning: near
/// displacements stand in the access, far ones are added to the pointer first.
pub fn accesses_are_done()
    ensures loads { LoadsAreDone }
    ensures stores { StoresAreDone }
{}

/// The code of a copy, a negation, a complement or a conversion comes to what that answers.
pub fn operations_on_one_are_done()
    ensures moves { UnaryIsDone Move }
    ensures negations { UnaryIsDone Negate }
    ensures complements { UnaryIsDone Complement }
    ensures conversions { ConversionsAreDone }
{}

/// So does that of an operation on two values.
pub fn operations_on_two_are_done()
    ensures sums { BinaryIsDone Add }
    ensures differences { BinaryIsDone Subtract }
    ensures products { BinaryIsDone Multiply }
    ensures conjunctions { BinaryIsDone And }
    ensures disjunctions { BinaryIsDone Or }
    ensures exclusive { BinaryIsDone ExclusiveOr }
{}

/// And that of a quotient or a remainder, which a routine answers.
pub fn divisions_are_done()
    ensures quotients { BinaryIsDone Divide }
    ensures remainders { BinaryIsDone Remainder }
{}

/// So does that of a shift.
pub fn shifts_are_done()
    ensures arithmetic { ShiftIsDone ArithmeticRight }
    ensures left { ShiftIsDone Left }
    ensures logical { ShiftIsDone LogicalRight }
{}

/// And that of a comparison.
pub fn comparisons_are_done()
    ensures equal { CompareIsDone Equal }
    ensures unlike { CompareIsDone NotEqual }
    ensures less { CompareIsDone Less }
    ensures at_most { CompareIsDone LessOrEqual }
{}

/// A register gets its constant or address, and a branch is taken where the value passes the test.
pub fn others_are_done()
    ensures constants { ConstantsAreLoaded }
    ensures addresses { AddressesAreLoaded }
    ensures branches { BranchesAreTaken }
{}
