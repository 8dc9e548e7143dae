//! The names of what is defined.

ghost use Rattle.std.specs.Prelude.{◌≡◌, IfOk, OnOk, is_some, length};
ghost use Rattle.c_typing_scopes.specs.Names.{find};
ghost use Rattle.c_typing_definitions.specs.Definitions as spec;

use c_tree::{Declaration, External, FunctionEnd, Init, Storage, TypeNode};
use c_typing_scopes::NameTable;
use std::alloc::{AllocError, Global};

/// The names of what a unit defines, each once.
#[derive(Drop)]
pub struct Definitions<'a> {
    /// The typedef names of function types.
    pub function_types: NameTable<'a, ()>,
    /// The functions.
    pub functions: NameTable<'a, ()>,
    /// The objects.
    pub objects: NameTable<'a, ()>,
}

fn has(names: &NameTable<'_, ()>, name: &[u8]) -> bool
    ensures { result ≡ is_some (find name.now names.now) }
{
    names.find(name).is_some()
}

fn add_name<'a>(names: &mut NameTable<'a, ()>, name: &'a [u8]) -> Result<(), AllocError>
    ensures { OnOk result (names.new ≡ spec.add_to_names name.now names.old) }
{
    if has(names, name) {
        return Ok(());
    }
    names.push(name, ())
}

/// Whether a declarator gives a function.
#[tactic(auto, unfolding(crate::specs::model::Opens::opens))]
fn is_function(function_types: &NameTable<'_, ()>, node: &TypeNode) -> bool
    ensures { result ≡ spec.is_function function_types.now node.now }
{
    match node {
        TypeNode::Basic(_) => false,
        TypeNode::Named(name) => has(function_types, name.as_slice()),
        TypeNode::Enum { .. } => false,
        TypeNode::Struct { .. } => false,
        TypeNode::Pointer(_) => false,
        TypeNode::Array { .. } => false,
        TypeNode::Takes { .. } => true,
    }
}

fn see_typedef<'a>(
    found: &mut Definitions<'a>,
    declaration: &'a Declaration,
) -> Result<(), AllocError>
    ensures { OnOk result (found.new ≡ spec.typedef_seen declaration.now found.old) }
{
    if is_function(&found.function_types, &declaration.ty) {
        return add_name(&mut found.function_types, declaration.name.as_slice());
    }
    Ok(())
}

/// Whether the declaration of an object defines it.
fn is_definition(storage: Option<Storage>, init: &Option<Init>) -> bool
    ensures { result ≡ spec.is_definition storage init.now }
{
    match storage {
        Some(Storage::Extern) => init.is_some(),
        Some(Storage::Static) => true,
        None => true,
    }
}

fn see_object<'a>(
    found: &mut Definitions<'a>,
    declaration: &'a Declaration,
    storage: Option<Storage>,
    init: &Option<Init>,
) -> Result<(), AllocError>
    ensures { OnOk result (found.new ≡ spec.object_seen declaration.now storage init.now found.old) }
{
    if is_function(&found.function_types, &declaration.ty) {
        return Ok(());
    }
    if is_definition(storage, init) {
        return add_name(&mut found.objects, declaration.name.as_slice());
    }
    Ok(())
}

fn see_function<'a>(
    found: &mut Definitions<'a>,
    declaration: &'a Declaration,
    end: &FunctionEnd,
) -> Result<(), AllocError>
    ensures { OnOk result (found.new ≡ spec.function_seen declaration.now end.now found.old) }
{
    match end {
        FunctionEnd::Nothing => Ok(()),
        FunctionEnd::Init(_) => Ok(()),
        FunctionEnd::Body(_) => add_name(&mut found.functions, declaration.name.as_slice()),
    }
}

fn see<'a>(found: &mut Definitions<'a>, external: &'a External) -> Result<(), AllocError>
    ensures { OnOk result (found.new ≡ spec.add_external external.now found.old) }
{
    match external {
        External::Typedef(declaration) => see_typedef(found, declaration),
        External::Object {
            declaration,
            storage,
            init,
        } => see_object(found, declaration, *storage, init),
        External::Function {
            declaration,
            end,
            ..
        } => see_function(found, declaration, end),
        External::Tags { .. } => Ok(()),
    }
}

fn nothing_defined<'a>(alloc: Global) -> Definitions<'a>
    ensures { result ≡ spec.nothing_defined }
{
    Definitions {
        function_types: NameTable::new(alloc),
        functions: NameTable::new(alloc),
        objects: NameTable::new(alloc),
    }
}

/// What the externals of a unit define. It fails only where memory is short.
pub fn find_definitions<'a>(
    alloc: Global,
    externals: &'a [External],
) -> Result<Definitions<'a>, AllocError>
    ensures { IfOk result (λ r. r ≡ spec.definitions externals.now) }
{
    let mut found = nothing_defined(alloc);
    for external in externals {
        see(&mut found, external)?;
    }
    Ok(found)
}

/// Whether a function of this name is defined.
pub fn defines_function(definitions: &Definitions<'_>, name: &[u8]) -> bool
    ensures { result ≡ is_some (find name.now definitions.now.functions) }
{
    has(&definitions.functions, name)
}

/// Whether an object of this name is defined.
pub fn defines_object(definitions: &Definitions<'_>, name: &[u8]) -> bool
    ensures { result ≡ is_some (find name.now definitions.now.objects) }
{
    has(&definitions.objects, name)
}

/// The number of objects that are defined, which is that of the first string literal. More than 32 bits count is
/// refused as want of memory.
pub fn object_count(definitions: &Definitions<'_>) -> Result<u32, AllocError>
    ensures { IfOk result (λ n. n ≡ length definitions.now.objects) }
{
    match u32::try_from(definitions.objects.len()) {
        Err(_) => Err(AllocError),
        Ok(count) => Ok(count),
    }
}
