//! Faults of typing.

/// The kinds of faults, in the order of their numbers.
#[derive(Clone, Copy, Debug, PartialEq, Eq)]
pub enum Kind {
    /// No function `main` of type `int (void)` is defined (C99 5.1.2.2.1). It stands at the end of the text.
    MissingMain,
    /// A name is used without a declaration in scope (C99 6.2.1, 6.5.1).
    UnknownName,
    /// A name or tag is declared again in its scope as something else, or is defined twice (C99 6.7, 6.9).
    Redeclared,
    /// The first use of a function or an object that the unit never defines (C99 6.9).
    NotDefined,
    /// A type that does not exist, is too large or too deep, or may not stand where it stands (C99 6.7.2, 6.7.5).
    BadType,
    /// An expression that has to be a constant and is none, or does not fit (C99 6.6).
    NotConstant,
    /// An operand of a type that its operator does not take (C99 6.5).
    BadOperand,
    /// An assignment, a step or an address of what is no place for it (C99 6.5.16, 6.5.2.4, 6.5.3.1, 6.5.3.2).
    NotAssignable,
    /// A value that is not converted to the type that is wanted, or a cast that there is not (C99 6.3, 6.5.4).
    BadConversion,
    /// A call of what is no function (C99 6.5.2.2).
    NotFunction,
    /// A call with another number of arguments than parameters (C99 6.5.2.2).
    BadCall,
    /// A member that a struct does not have, or has twice (C99 6.5.2.3, 6.7.2.1).
    NoMember,
    /// Two labels of one `switch` with the same value, or two defaults (C99 6.8.4.2).
    BadLabel,
    /// A `break` or `continue` in no statement that it belongs to (C99 6.8.6).
    BadJump,
    /// A `return` with a value in a function of type `void`, or without one in another function (C99 6.8.6.4).
    BadReturn,
    /// A literal whose value no type of its list holds (C99 6.4.4.1).
    BadLiteral,
    /// An initialiser that does not fit what it initialises (C99 6.7.8).
    BadInit,
}

/// A fault at the offset `at` of the text.
#[derive(Clone, Copy, Debug, PartialEq, Eq)]
pub struct Fault {
    pub at: u32,
    pub kind: Kind,
}
