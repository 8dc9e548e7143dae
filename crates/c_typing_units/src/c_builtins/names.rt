//! The names that each unit begins with.

ghost use Rattle.std.specs.Prelude.{◌≡◌, OnOk, IfOk, [], ◌∷◌};
ghost use Rattle.c_typing_rules.specs.Values as values;
ghost use Rattle.c_typing_units.specs.c_builtins.Builtins as spec;

use bk_arithmetic::integer_type::IntegerType;
use bk_containers::Seq;
use c_typed_tree::{Builtin, CType, Callee};
use c_typing_judgements::leaves::copy_types;
use c_typing_rules::c_typing_declared_types::DeclaredType;
use c_typing_rules::types::integer_type;
use c_typing_scopes::NameTable;
use c_typing_state::{Env, NameMeaning, declare};
use c_typing_unit_names::{NameDeclaration, UnitNames};
use std::alloc::{AllocError, Global};

fn no_names<'a>(alloc: Global) -> UnitNames<'a>
    ensures { result ≡ spec.no_names }
{
    UnitNames {
        declared: NameTable::new(alloc),
        functions: 0,
        objects: 0,
        undefined: 0,
    }
}

/// Declares a built-in function, which counts as defined.
fn declare_builtin<'a>(
    alloc: Global,
    names: &mut UnitNames<'a>,
    env: &mut Env<'a>,
    name: &'a [u8],
    builtin: Builtin,
    of: CType,
    parameters: Seq<CType>,
) -> Result<(), AllocError>
    ensures { OnOk result ((names.new, env.new)
        ≡ spec.builtin_declared name.now builtin of parameters (names.old, env.old)) }
{
    let meaning = NameMeaning::Function {
        callee: Callee::Builtin(builtin),
        result: of.copy(alloc)?,
        parameters: copy_types(alloc, parameters.as_slice())?,
    };
    declare(env, name, meaning)?;
    let ty = DeclaredType::Function {
        result: of,
        parameters,
    };
    names.declared.push(
        name,
        NameDeclaration {
            is_typedef: false,
            ty,
            has_value: true,
        },
    )
}

fn int() -> CType
    ensures { result ≡ values.int }
{
    integer_type(IntegerType::Int)
}

/// The one parameter of `putchar` and `exit`.
fn one_int(alloc: Global) -> Result<Seq<CType>, AllocError>
    ensures { IfOk result (λ r. r ≡ values.int ∷ []) }
{
    let mut parameters = Seq::new(alloc);
    parameters.push(int())?;
    Ok(parameters)
}

/// Declares the built-in functions, before the first declaration.
fn declare_builtins<'a>(
    alloc: Global,
    names: &mut UnitNames<'a>,
    env: &mut Env<'a>,
) -> Result<(), AllocError>
    ensures { OnOk result ((names.new, env.new) ≡ spec.with_builtins (names.old, env.old)) }
{
    let takes_int = one_int(alloc)?;
    declare_builtin(
        alloc,
        names,
        env,
        b"putchar".as_slice(),
        Builtin::Putchar,
        int(),
        takes_int,
    )?;
    declare_builtin(
        alloc,
        names,
        env,
        b"getchar".as_slice(),
        Builtin::Getchar,
        int(),
        Seq::new(alloc),
    )?;
    declare_builtin(
        alloc,
        names,
        env,
        b"abort".as_slice(),
        Builtin::Abort,
        CType::Void,
        Seq::new(alloc),
    )?;
    let takes_int = one_int(alloc)?;
    declare_builtin(
        alloc,
        names,
        env,
        b"exit".as_slice(),
        Builtin::Exit,
        CType::Void,
        takes_int,
    )
}

/// The names of file scope before the first declaration of a unit, and those in scope: the built-in functions. It fails
/// only where memory is short.
pub fn builtins<'a>(alloc: Global) -> Result<(UnitNames<'a>, Env<'a>), AllocError>
    ensures { IfOk result (λ r. r ≡ spec.builtins) }
{
    let mut names = no_names(alloc);
    let mut env = Env {
        names: NameTable::new(alloc),
        outside: 0,
    };
    declare_builtins(alloc, &mut names, &mut env)?;
    Ok((names, env))
}
