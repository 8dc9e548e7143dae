//! Names of file scope.

ghost use Rattle.std.specs.Prelude.{◌≡◌, ◌+◌, IfOk, OnOk};
ghost use Rattle.std.specs.Option.{option_copied};
ghost use Rattle.c_typing_scopes.specs.Names.{find};
ghost use Rattle.c_typing_state.specs.Checks.{Finds};
ghost use Rattle.c_typing_unit_names.specs.UnitNames as spec;

use c_typed_tree::{CType, Callee};
use c_typing_definitions::{Definitions, defines_function, defines_object};
use c_typing_faults::Kind;
use c_typing_judgements::leaves::{copy_declared, copy_types};
use c_typing_rules::c_typing_declared_types::DeclaredType;
use c_typing_rules::types::is_same;
use c_typing_scopes::NameTable;
use c_typing_state::{Env, NameMeaning, Notes, declare, meaning_of, note};
use std::alloc::{AllocError, Global};

/// What is declared of a name.
#[derive(Drop)]
pub struct NameDeclaration {
    pub is_typedef: bool,
    pub ty: DeclaredType,
    /// Whether it has an initialiser or a body.
    pub has_value: bool,
}

/// The names that were declared, and how many of them were numbered.
#[derive(Drop)]
pub struct UnitNames<'a> {
    pub declared: NameTable<'a, NameDeclaration>,
    /// The functions that the unit defines.
    pub functions: u32,
    /// The objects that it defines.
    pub objects: u32,
    /// The functions and objects that it never defines.
    pub undefined: u32,
}

fn are_same(a: &[CType], b: &[CType]) -> bool
    ensures { result ≡ spec.are_same a.now b.now }
{
    let mut rest = b;
    for x in a {
        match rest.split_first() {
            None => return false,
            Some((y, ys)) => {
                if !is_same(x, y) {
                    return false;
                }
                rest = ys;
            }
        }
    }
    rest.is_empty()
}

fn is_same_declared(a: &DeclaredType, b: &DeclaredType) -> bool
    ensures { result ≡ spec.is_same_declared a.now b.now }
{
    match a {
        DeclaredType::Value(a) => match b {
            DeclaredType::Value(b) => is_same(a, b),
            DeclaredType::Unsized(_) => false,
            DeclaredType::Function { .. } => false,
        },
        DeclaredType::Unsized(a) => match b {
            DeclaredType::Value(_) => false,
            DeclaredType::Unsized(b) => is_same(a, b),
            DeclaredType::Function { .. } => false,
        },
        DeclaredType::Function { result, parameters } => match b {
            DeclaredType::Value(_) => false,
            DeclaredType::Unsized(_) => false,
            DeclaredType::Function {
                result: other,
                parameters: others,
            } => is_same(result, other) && are_same(parameters.as_slice(), others.as_slice()),
        },
    }
}

/// Whether a declaration may follow another one of its name.
fn may_follow(a: &NameDeclaration, b: &NameDeclaration) -> bool
    ensures { result ≡ spec.may_follow a.now b.now }
{
    a.is_typedef == b.is_typedef && is_same_declared(&a.ty, &b.ty) && !(a.has_value && b.has_value)
}

/// The next number of a count.
fn next(count: u32) -> Result<u32, AllocError>
    ensures { IfOk result (λ n. n ≡ count + 1) }
{
    match count.checked_add(1) {
        None => Err(AllocError),
        Some(next) => Ok(next),
    }
}

fn undefined_name(names: &mut UnitNames<'_>) -> Result<NameMeaning, AllocError>
    ensures { Finds (spec.undefined_name names.old) result names.new }
{
    let number = names.undefined;
    names.undefined = next(number)?;
    Ok(NameMeaning::Undefined(number))
}

fn object_name(
    alloc: Global,
    names: &mut UnitNames<'_>,
    defined: bool,
    ty: &CType,
) -> Result<NameMeaning, AllocError>
    ensures { Finds (spec.object_name defined ty.now names.old) result names.new }
{
    if !defined {
        return undefined_name(names);
    }
    let number = names.objects;
    names.objects = next(number)?;
    let ty = ty.copy(alloc)?;
    Ok(NameMeaning::Object { number, ty })
}

fn function_name(
    alloc: Global,
    names: &mut UnitNames<'_>,
    defined: bool,
    of: &CType,
    parameters: &[CType],
) -> Result<NameMeaning, AllocError>
    ensures { Finds (spec.function_name defined of.now parameters.now names.old) result names.new }
{
    if !defined {
        return undefined_name(names);
    }
    let number = names.functions;
    names.functions = next(number)?;
    let of = of.copy(alloc)?;
    let parameters = copy_types(alloc, parameters)?;
    Ok(NameMeaning::Function {
        callee: Callee::Function(number),
        result: of,
        parameters,
    })
}

fn value_name(
    alloc: Global,
    definitions: &Definitions<'_>,
    names: &mut UnitNames<'_>,
    name: &[u8],
    ty: &DeclaredType,
) -> Result<NameMeaning, AllocError>
    ensures { Finds (spec.value_name definitions.now name.now ty.now names.old) result names.new }
{
    match ty {
        DeclaredType::Value(ty) => {
            let defined = defines_object(definitions, name);
            object_name(alloc, names, defined, ty)
        }
        DeclaredType::Unsized(_) => Ok(NameMeaning::Faulty),
        DeclaredType::Function { result, parameters } => {
            let defined = defines_function(definitions, name);
            function_name(alloc, names, defined, result, parameters.as_slice())
        }
    }
}

/// What a name means that is declared first.
fn first_meaning(
    alloc: Global,
    definitions: &Definitions<'_>,
    names: &mut UnitNames<'_>,
    name: &[u8],
    new: &NameDeclaration,
) -> Result<NameMeaning, AllocError>
    ensures { Finds (spec.first_meaning definitions.now name.now new.now names.old) result names.new }
{
    if new.is_typedef {
        return Ok(NameMeaning::Typedef(copy_declared(alloc, &new.ty)?));
    }
    value_name(alloc, definitions, names, name, &new.ty)
}

/// What a name of file scope is declared to be first, if it has no other meaning.
fn declare_first<'a>(
    alloc: Global,
    definitions: &Definitions<'_>,
    names: &mut UnitNames<'a>,
    env: &mut Env<'a>,
    name: &'a [u8],
    new: NameDeclaration,
) -> Result<(), AllocError>
    ensures { OnOk result ((names.new, env.new) ≡ spec.named_first definitions.now name.now new names.old env.old) }
{
    let meaning = first_meaning(alloc, definitions, names, name, &new)?;
    declare(env, name, meaning)?;
    names.declared.push(name, new)
}

/// Whether a name has a meaning, and which kind of one.
#[derive(Clone, Copy, Debug, PartialEq, Eq)]
pub(crate) enum PriorMeaning {
    Nothing,
    Faulty,
    Other,
}

fn meaning_before(meaning: Option<&NameMeaning>) -> PriorMeaning
    ensures { result ≡ spec.meaning_before (option_copied meaning.entry) }
{
    match meaning {
        None => PriorMeaning::Nothing,
        Some(meaning) => match meaning {
            NameMeaning::Faulty => PriorMeaning::Faulty,
            NameMeaning::Undefined(_) => PriorMeaning::Other,
            NameMeaning::Local { .. } => PriorMeaning::Other,
            NameMeaning::Object { .. } => PriorMeaning::Other,
            NameMeaning::Constant(_) => PriorMeaning::Other,
            NameMeaning::Function { .. } => PriorMeaning::Other,
            NameMeaning::Typedef(_) => PriorMeaning::Other,
        },
    }
}

/// Declares a name of which nothing was declared without fault, but for enumeration constants.
fn declare_new<'a>(
    alloc: Global,
    definitions: &Definitions<'_>,
    names: &mut UnitNames<'a>,
    env: &mut Env<'a>,
    notes: &mut Notes<'a>,
    at: u32,
    name: &'a [u8],
    new: NameDeclaration,
) -> Result<(), AllocError>
    ensures { OnOk result ((names.new, (env.new, notes.new))
        ≡ spec.first_declared definitions.now at name.now new names.old (env.old, notes.old)) }
{
    match meaning_before(meaning_of(env, name)) {
        PriorMeaning::Nothing => declare_first(alloc, definitions, names, env, name, new),
        PriorMeaning::Faulty => Ok(()),
        PriorMeaning::Other => note(notes, at, Kind::Redeclared),
    }
}

/// What was declared of a name: whether another declaration may follow, and whether it has a value then.
fn follows(names: &UnitNames<'_>, name: &[u8], new: &NameDeclaration) -> Option<Option<bool>>
    ensures { result ≡ spec.follows (find name.now names.now.declared) new.now }
{
    match names.declared.find(name) {
        None => None,
        Some((_, old)) => {
            if may_follow(old, new) {
                return Some(Some(old.has_value || new.has_value));
            }
            Some(None)
        }
    }
}

fn declare_faulty<'a>(env: &mut Env<'a>, name: &'a [u8]) -> Result<(), AllocError>
    ensures { OnOk result (env.new ≡ spec.faulty_name name.now env.old) }
{
    match meaning_before(meaning_of(env, name)) {
        PriorMeaning::Nothing => declare(env, name, NameMeaning::Faulty),
        PriorMeaning::Faulty => Ok(()),
        PriorMeaning::Other => Ok(()),
    }
}

fn declare_known<'a>(
    alloc: Global,
    definitions: &Definitions<'_>,
    names: &mut UnitNames<'a>,
    env: &mut Env<'a>,
    notes: &mut Notes<'a>,
    at: u32,
    name: &'a [u8],
    new: NameDeclaration,
) -> Result<(), AllocError>
    ensures { OnOk result ((names.new, (env.new, notes.new))
        ≡ spec.known_declared definitions.now at name.now new names.old (env.old, notes.old)) }
{
    match follows(names, name, &new) {
        None => declare_new(alloc, definitions, names, env, notes, at, name, new),
        Some(None) => note(notes, at, Kind::Redeclared),
        Some(Some(has_value)) => {
            let NameDeclaration { is_typedef, ty, .. } = new;
            let joined = NameDeclaration {
                is_typedef,
                ty,
                has_value,
            };
            names.declared.push(name, joined)
        }
    }
}

/// Declares a name at file scope, or says that its declaration has a fault.
pub fn declare_in_unit<'a>(
    alloc: Global,
    definitions: &Definitions<'_>,
    names: &mut UnitNames<'a>,
    env: &mut Env<'a>,
    notes: &mut Notes<'a>,
    at: u32,
    name: &'a [u8],
    new: Option<NameDeclaration>,
) -> Result<(), AllocError>
    ensures { OnOk result ((names.new, (env.new, notes.new))
        ≡ spec.judge_declaration definitions.now at name.now new names.old (env.old, notes.old)) }
{
    match new {
        None => declare_faulty(env, name),
        Some(new) => declare_known(alloc, definitions, names, env, notes, at, name, new),
    }
}
