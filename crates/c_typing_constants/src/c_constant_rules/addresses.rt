//! Address constants (C99 6.6p9): the address of an object of static storage, or a place within one.

ghost use Rattle.std.specs.Prelude.{◌≡◌};
ghost use Rattle.c_typed_tree.specs.View.{expr_view, type_view};
ghost use Rattle.c_typed_tree.specs.Typing as typing;
ghost use Rattle.c_typing_constants.specs.c_constant_rules.Addresses as spec;

use crate::constant;
use bk_arithmetic::integer_type::IntegerType;
use c_tree::{BinaryOp, UnaryOp};
use c_typed_tree::layout::{integer_of, offset_of, size_of};
use c_typed_tree::{CType, StructDef, TExpr};
use c_typing_rules::types::{is_object, is_pointer};

/// A place in an object of static storage.
#[derive(Clone, Copy, Debug, PartialEq, Eq)]
pub struct Address {
    /// The number of the object.
    pub global: u32,
    /// The size of the object in bytes.
    pub size: u64,
    /// The place in the object, in bytes from its start.
    pub plus: u64,
}

/// The start of an object of a type.
fn start_of(structs: &[StructDef], ty: &CType, global: u32) -> Option<Address>
    ensures { result ≡ spec.start_address structs.now (type_view ty.now) global }
{
    if is_object(structs, ty) {
        return Some(Address {
            global,
            size: size_of(structs, ty),
            plus: 0,
        });
    }
    None
}

#[tactic(auto, unfolding(c_typed_tree::specs::model::View::opens))]
fn is_array(ty: &CType) -> bool
    ensures { result ≡ typing.is_array (type_view ty.now) }
{
    match ty {
        CType::Void => false,
        CType::Int { .. } => false,
        CType::Pointer(_) => false,
        CType::Array(_, _) => true,
        CType::Struct(_) => false,
    }
}

/// What an operator leads to in front of an lvalue that stands there, where it is `&`.
fn address_of_lvalue(op: UnaryOp, place: Option<Address>) -> Option<Address>
    ensures { result ≡ spec.address_of_lvalue op place }
{
    match op {
        UnaryOp::Address => place,
        UnaryOp::Increment => None,
        UnaryOp::Decrement => None,
        UnaryOp::Dereference => None,
        UnaryOp::Plus => None,
        UnaryOp::Minus => None,
        UnaryOp::Invert => None,
        UnaryOp::Not => None,
    }
}

/// What an operator names in front of a pointer that leads there, where it is `*`.
fn lvalue_of_pointer(op: UnaryOp, place: Option<Address>) -> Option<Address>
    ensures { result ≡ spec.lvalue_of_pointer op place }
{
    match op {
        UnaryOp::Dereference => place,
        UnaryOp::Increment => None,
        UnaryOp::Decrement => None,
        UnaryOp::Address => None,
        UnaryOp::Plus => None,
        UnaryOp::Minus => None,
        UnaryOp::Invert => None,
        UnaryOp::Not => None,
    }
}

/// A number without its sign.
fn magnitude(t: IntegerType, word: u64) -> u128
    ensures { result ≡ spec.magnitude t word }
{
    let distance = u128::from(t.convert(IntegerType::UnsignedLong, word));
    if t.is_less(word, 0) {
        return 0x1_0000_0000_0000_0000 - distance;
    }
    distance
}

/// Some bytes further in the object, up to its end.
fn forward(from: Address, bytes: u128) -> Option<Address>
    ensures { result ≡ spec.address_after from bytes }
{
    if bytes <= u128::from(from.size.saturating_sub(from.plus)) {
        return Some(Address {
            global: from.global,
            size: from.size,
            plus: from.plus + bytes as u64,
        });
    }
    None
}

/// Some bytes back, down to the start of the object.
fn backward(from: Address, bytes: u128) -> Option<Address>
    ensures { result ≡ spec.address_before from bytes }
{
    if bytes <= u128::from(from.plus) {
        return Some(Address {
            global: from.global,
            size: from.size,
            plus: from.plus - bytes as u64,
        });
    }
    None
}

/// Whether a step goes back: one of a negative number forwards, or one of another number backwards.
fn goes_back(back: bool, t: IntegerType, word: u64) -> bool
    ensures { result ≡ spec.goes_back back t word }
{
    back != t.is_less(word, 0)
}

/// A number of elements of a size further or back.
fn step_elements(from: Address, size: u64, back: bool, t: IntegerType, word: u64) -> Option<Address>
    ensures { result ≡ spec.step_elements from size back t word }
{
    let bytes = u128::from(size) * magnitude(t, word);
    if goes_back(back, t, word) {
        return backward(from, bytes);
    }
    forward(from, bytes)
}

/// The size of what a pointer type points to, where objects have it.
#[tactic(auto, unfolding(c_typed_tree::specs::model::View::opens))]
fn target_size(structs: &[StructDef], ty: &CType) -> Option<u64>
    ensures { result ≡ spec.target_size structs.now (type_view ty.now) }
{
    match ty {
        CType::Void => None,
        CType::Int { .. } => None,
        CType::Pointer(target) => {
            if is_object(structs, target) {
                return Some(size_of(structs, target));
            }
            None
        }
        CType::Array(_, _) => None,
        CType::Struct(_) => None,
    }
}

/// A pointer moved by an integer, of which the value is given where it is a constant.
fn move_pointer(
    from: Option<Address>,
    size: Option<u64>,
    back: bool,
    t: Option<IntegerType>,
    word: Option<u64>,
) -> Option<Address>
    ensures { result ≡ spec.move_pointer from size back t word }
{
    match from {
        None => None,
        Some(from) => match size {
            None => None,
            Some(size) => match t {
                None => None,
                Some(t) => match word {
                    None => None,
                    Some(word) => step_elements(from, size, back, t, word),
                },
            },
        },
    }
}

/// A pointer that is moved by an integer, by the trees of both.
fn moved_by(
    structs: &[StructDef],
    from: Option<Address>,
    pointer: &TExpr,
    back: bool,
    integer: &TExpr,
) -> Option<Address>
    ensures { result ≡ spec.moved_by structs.now from (expr_view pointer.now) back (expr_view integer.now) }
{
    let size = target_size(structs, pointer.ty());
    move_pointer(
        from,
        size,
        back,
        integer_of(integer.ty()),
        constant(integer),
    )
}

/// What `+` and `-` do to a pointer; `None` of the other operators.
fn direction(op: BinaryOp) -> Option<bool>
    ensures { result ≡ spec.direction op }
{
    match op {
        BinaryOp::Add => Some(false),
        BinaryOp::Subtract => Some(true),
        BinaryOp::LogicalOr => None,
        BinaryOp::LogicalAnd => None,
        BinaryOp::Or => None,
        BinaryOp::Xor => None,
        BinaryOp::And => None,
        BinaryOp::Equal => None,
        BinaryOp::NotEqual => None,
        BinaryOp::Less => None,
        BinaryOp::Greater => None,
        BinaryOp::LessEqual => None,
        BinaryOp::GreaterEqual => None,
        BinaryOp::ShiftLeft => None,
        BinaryOp::ShiftRight => None,
        BinaryOp::Multiply => None,
        BinaryOp::Divide => None,
        BinaryOp::Remainder => None,
    }
}

/// A member of a struct of a type that stands there.
#[tactic(auto, unfolding(c_typed_tree::specs::model::View::opens))]
fn constant_member(
    structs: &[StructDef],
    ty: &CType,
    member: u32,
    from: Option<Address>,
) -> Option<Address>
    ensures { result ≡ spec.constant_member structs.now (type_view ty.now) member from }
{
    match ty {
        CType::Struct(number) => match from {
            None => None,
            Some(from) => forward(from, u128::from(offset_of(structs, *number, member))),
        },
        CType::Void => None,
        CType::Int { .. } => None,
        CType::Pointer(_) => None,
        CType::Array(_, _) => None,
    }
}

/// A member of the struct that a pointer of a type leads to.
#[tactic(auto, unfolding(c_typed_tree::specs::model::View::opens))]
fn member_behind(
    structs: &[StructDef],
    ty: &CType,
    member: u32,
    from: Option<Address>,
) -> Option<Address>
    ensures { result ≡ spec.constant_member structs.now (typing.target_of (type_view ty.now)) member from }
{
    match ty {
        CType::Pointer(target) => constant_member(structs, target, member, from),
        CType::Void => None,
        CType::Int { .. } => None,
        CType::Array(_, _) => None,
        CType::Struct(_) => None,
    }
}

/// The address that an initialiser of an object of static storage gives: a pointer to such an object or to a part of it,
/// each step within the object. `None` of what is no such constant.
#[cycle(address_constant)]
#[tactic(auto, unfolding(c_typed_tree::specs::model::View::opens))]
pub fn address_constant(structs: &[StructDef], e: &TExpr) -> Option<Address>
    ensures { result ≡ spec.address_constant structs.now (expr_view e.now) }
{
    match e {
        TExpr::Unary { op, operand, .. } => {
            address_of_lvalue(*op, constant_lvalue(structs, operand))
        }
        TExpr::Convert { operand, .. } => {
            if is_array(operand.ty()) {
                return constant_lvalue(structs, operand);
            }
            address_constant(structs, operand)
        }
        TExpr::Cast { ty, operand } => {
            if is_pointer(ty) {
                return address_constant(structs, operand);
            }
            None
        }
        TExpr::Binary {
            op,
            left,
            right,
            ..
        } => match direction(*op) {
            None => None,
            Some(back) => {
                if is_pointer(left.ty()) {
                    return moved_by(structs, address_constant(structs, left), left, back, right);
                }
                moved_by(structs, address_constant(structs, right), right, back, left)
            }
        },
        TExpr::Number { .. } => None,
        TExpr::Local { .. } => None,
        TExpr::Global { .. } => None,
        TExpr::Call { .. } => None,
        TExpr::Assign { .. } => None,
        TExpr::Conditional { .. } => None,
        TExpr::Index { .. } => None,
        TExpr::Field { .. } => None,
        TExpr::Arrow { .. } => None,
        TExpr::Postfix { .. } => None,
        TExpr::Comma { .. } => None,
    }
}

/// The object of static storage, or the part of one, that an lvalue names.
#[cycle(address_constant)]
#[tactic(auto, unfolding(c_typed_tree::specs::model::View::opens))]
fn constant_lvalue(structs: &[StructDef], e: &TExpr) -> Option<Address>
    ensures { result ≡ spec.constant_lvalue structs.now (expr_view e.now) }
{
    match e {
        TExpr::Global { ty, number } => start_of(structs, ty, *number),
        TExpr::Unary { op, operand, .. } => {
            lvalue_of_pointer(*op, address_constant(structs, operand))
        }
        TExpr::Index { left, right, .. } => {
            if is_pointer(left.ty()) {
                return moved_by(structs, address_constant(structs, left), left, false, right);
            }
            moved_by(
                structs,
                address_constant(structs, right),
                right,
                false,
                left,
            )
        }
        TExpr::Field {
            operand,
            member,
            ..
        } => constant_member(
            structs,
            operand.ty(),
            *member,
            constant_lvalue(structs, operand),
        ),
        TExpr::Arrow {
            operand,
            member,
            ..
        } => member_behind(
            structs,
            operand.ty(),
            *member,
            address_constant(structs, operand),
        ),
        TExpr::Number { .. } => None,
        TExpr::Local { .. } => None,
        TExpr::Call { .. } => None,
        TExpr::Binary { .. } => None,
        TExpr::Assign { .. } => None,
        TExpr::Conditional { .. } => None,
        TExpr::Cast { .. } => None,
        TExpr::Convert { .. } => None,
        TExpr::Postfix { .. } => None,
        TExpr::Comma { .. } => None,
    }
}
