//! Names in scope.

ghost use Rattle.std.specs.Prelude.{◌≡◌, OnOk};
ghost use Rattle.std.specs.Option.{option_copied};
ghost use Rattle.c_typing_scopes.specs.Names.{find};
ghost use Rattle.c_typing_state.specs.Scopes as spec;

use crate::meanings::NameMeaning;
use c_typing_scopes::NameTable;
use std::alloc::AllocError;

/// The names in scope, and how many of them stand outside the present block.
#[derive(Drop)]
pub struct Env<'a> {
    pub names: NameTable<'a, NameMeaning>,
    pub outside: usize,
}

/// Opens a scope, and says how many names stood outside the one before.
pub fn enter(env: &mut Env<'_>) -> usize
    ensures count { result ≡ env.old.outside }
    ensures entered { env.new ≡ spec.enter env.old }
{
    let outside = env.outside;
    env.outside = env.names.len();
    outside
}

/// Declares a name in the present scope.
pub fn declare<'a>(
    env: &mut Env<'a>,
    name: &'a [u8],
    meaning: NameMeaning,
) -> Result<(), AllocError>
    ensures { OnOk result (env.new ≡ spec.with_meaning name.now meaning env.old) }
{
    env.names.push(name, meaning)
}

/// Leaves the present scope for the one around it, of which it is given how many names stand outside.
pub fn leave(env: &mut Env<'_>, outside: usize)
    ensures { env.new ≡ spec.leave outside env.old }
{
    let count = env.outside;
    env.names.leave(count);
    env.outside = outside;
}

/// What a name means.
pub fn meaning_of<'b>(env: &'b Env<'_>, name: &[u8]) -> Option<&'b NameMeaning>
    ensures { option_copied result ≡ spec.meaning_of env.now name.now }
{
    match env.names.find(name) {
        None => None,
        Some((_, meaning)) => Some(meaning),
    }
}

/// Whether a name is declared in the present scope.
pub fn stands_here(env: &Env<'_>, name: &[u8]) -> bool
    ensures { result ≡ spec.stands_here env.now (find name.now env.now.names) }
{
    match env.names.find(name) {
        None => false,
        Some((place, _)) => !(place < env.outside),
    }
}
