//! The values of initialisers.

ghost use Rattle.std.specs.Prelude.{◌≡◌};
ghost use Rattle.c_typed_tree.specs.View.{expr_view};
ghost use Rattle.c_typing_rules.specs.Rulings.{RuleGives};
ghost use Rattle.c_typing_initial_values.specs.Values as spec;

use bk_arithmetic::integer_type::IntegerType;
use c_typed_tree::layout::integer_of;
use c_typed_tree::{StructDef, TExpr};
use c_typing_constants::c_constant_rules::addresses::{Address, address_constant};
use c_typing_constants::{constant, is_null_pointer};
use c_typing_faults::Kind;
use c_typing_rules::{Refusal, TypedExpression, refuse};

/// A value that is known before a program runs.
#[derive(Clone, Copy, Debug, PartialEq, Eq)]
pub enum InitialValue {
    /// A number, as a word of an integer type.
    Word { of: IntegerType, word: u64 },
    /// The null pointer.
    Null,
    /// A place in an object of static storage.
    Address(Address),
}

/// A pointer that is known before a program runs.
fn pointer_value(structs: &[StructDef], tree: &TExpr) -> Option<InitialValue>
    ensures { result ≡ spec.pointer_value structs.now (expr_view tree.now) }
{
    if is_null_pointer(tree) {
        return Some(InitialValue::Null);
    }
    match address_constant(structs, tree) {
        None => None,
        Some(address) => Some(InitialValue::Address(address)),
    }
}

fn value_by(structs: &[StructDef], of: Option<IntegerType>, tree: &TExpr) -> Option<InitialValue>
    ensures { result ≡ spec.value_by structs.now of (expr_view tree.now) }
{
    match of {
        None => pointer_value(structs, tree),
        Some(of) => match constant(tree) {
            None => None,
            Some(word) => Some(InitialValue::Word { of, word }),
        },
    }
}

/// The value of an expression, of which an array is a pointer already: an integer constant, a null pointer, or an
/// address constant (C99 6.6). What is none has the fault NotConstant.
pub fn initial_value(structs: &[StructDef], a: &TypedExpression) -> Result<InitialValue, Refusal>
    ensures { RuleGives (spec.initial_value structs.now a.now) result }
{
    match value_by(structs, integer_of(&a.ty), &a.tree) {
        None => Err(refuse(a.at, Kind::NotConstant)),
        Some(value) => Ok(value),
    }
}
