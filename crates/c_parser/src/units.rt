//! Units.

ghost use Rattle.std.specs.Prelude.{◌≡◌, [], length, IfOk};
ghost use Rattle.c_parser_grammar.specs.ParseSpecifiers.{braced_list_from};
ghost use Rattle.c_parser_grammar.specs.Types as types;
ghost use Rattle.c_parser_grammar.specs.ParseUnits as model;
ghost use Rattle.c_parser_cursor.specs.Answers.{Answers};
ghost use Rattle.c_parser.specs.model.Answers.{AnswersIn, AnswersUnit};
ghost use Rattle.c_parser.specs.model.Parts as parts;
ghost use Rattle.c_parser_grammar.specs.Units.{external_of, is_function};

use bk_containers::{Box, Seq};
use c_lexer::Punct;
use c_parser_cursor::c_parser_types::{SpecifierType, with_shapes};
use c_parser_cursor::{ParseStop, Tokens, TypedefScope};
use c_parser_expressions::{declarator, expr};
use c_parser_grammar::{
    Declarator, DeclaredName, NameRequirement, Shape, StorageClass, levels, storage_class_of,
};
use c_parser_specifiers::{append, declaration, specifier};
use c_parser_statements::items;
use c_tree::{Declaration, External, FunctionEnd, Init, Storage};
use std::alloc::{AllocError, Global};

/// Reads initialisers with commas between them, one or more, and perhaps a comma behind.
#[cycle(init)]
#[tactic(auto, using(c_parser_specifiers::proofs::Loops::braced_turn, c_parser_specifiers::proofs::Loops::braced_end))]
fn inits(
    alloc: Global,
    scope: &TypedefScope,
    tokens: &mut Tokens<'_>,
    depth: usize,
) -> Result<Seq<Init>, ParseStop>
    ensures { Answers (braced_list_from (model.init scope.now depth) (length tokens.old) [] tokens.old)
        result tokens.new }
{
    let mut found = Seq::new(alloc);
    for _turn in 0..tokens.count_left() {
        found.push(init(alloc, scope, tokens, depth)?)?;
        if !tokens.sees(Punct::Comma) {
            return Ok(found);
        }
        tokens.take();
        if tokens.sees(Punct::RightBrace) {
            return Ok(found);
        }
    }
    Err(ParseStop::Refused)
}

/// Reads an initialiser. The depth bounds how deep it goes: as much as there are tokens is enough.
#[cycle(init)]
#[tactic(auto, using(crate::proofs::Deeper::init_deeper), unfolding(crate::proofs::Opens::initialiser))]
fn init(
    alloc: Global,
    scope: &TypedefScope,
    tokens: &mut Tokens<'_>,
    depth: usize,
) -> Result<Init, ParseStop>
    ensures { Answers (model.init scope.now depth tokens.old) result tokens.new }
{
    if depth == 0 {
        return Err(ParseStop::Refused);
    }
    if !tokens.sees(Punct::LeftBrace) {
        return Ok(Init::Value(expr(alloc, scope, tokens, depth, levels::ASSIGNMENT)?));
    }
    let at = tokens.place();
    tokens.take();
    let items = inits(alloc, scope, tokens, depth - 1)?;
    tokens.expect(Punct::RightBrace)?;
    Ok(Init::List { at, items })
}

/// Reads one declarator of a `typedef` behind its type. Its name is that of a type from then on.
#[tactic(auto, unfolding(crate::specs::model::Parts::typedef_declarator))]
fn typedef_declarator(
    alloc: Global,
    scope: &mut TypedefScope,
    tokens: &mut Tokens<'_>,
    depth: usize,
    base: SpecifierType,
) -> Result<External, ParseStop>
    ensures { AnswersIn (parts.typedef_declarator scope.old depth base tokens.old) result scope.new tokens.new }
{
    let declaration = declaration(alloc, scope, tokens, depth, NameRequirement::Required, base)?;
    let declaration = Box::new(alloc, declaration)?;
    scope.add_type(alloc, declaration.name.copy()?)?;
    Ok(External::Typedef(Box::into_inner(declaration)))
}

/// Reads the declarators of a `typedef` behind their type. The names of types grow from one to the next.
#[tactic(auto, using(crate::proofs::Loops::typedefs_turn, crate::proofs::Loops::typedefs_end))]
fn typedef_declarators(
    alloc: Global,
    scope: &mut TypedefScope,
    tokens: &mut Tokens<'_>,
    depth: usize,
    base: SpecifierType,
) -> Result<Seq<External>, ParseStop>
    ensures { AnswersIn (model.typedefs_from scope.old depth (length tokens.old) base [] tokens.old) result
        scope.new tokens.new }
{
    let mut found = Seq::new(alloc);
    let mut ty = Box::new(alloc, base)?;
    for _turn in 0..tokens.count_left() {
        let bare = Box::new(alloc, ty.bare()?)?;
        let first = Box::into_inner(ty);
        found.push(typedef_declarator(alloc, scope, tokens, depth, first)?)?;
        ty = bare;
        if !tokens.sees(Punct::Comma) {
            return Ok(found);
        }
        tokens.take();
    }
    Err(ParseStop::Refused)
}

/// Reads a `typedef` behind its word.
#[tactic(auto, unfolding(c_parser_grammar::specs::ParseUnits::typedefs))]
fn typedefs(
    alloc: Global,
    scope: &mut TypedefScope,
    tokens: &mut Tokens<'_>,
    depth: usize,
) -> Result<Seq<External>, ParseStop>
    ensures { AnswersIn (model.typedefs scope.old depth tokens.old) result scope.new tokens.new }
{
    let base = specifier(alloc, scope, tokens, depth)?;
    let found = typedef_declarators(alloc, scope, tokens, depth, base)?;
    tokens.expect(Punct::Semicolon)?;
    Ok(found)
}

/// A declarator with a name, behind its type, which is in a box so that what waits for it is small.
#[derive(Drop)]
struct TypedDeclarator {
    ty: Box<SpecifierType>,
    named: DeclaredName,
    shapes: Seq<Shape>,
}

impl TypedDeclarator {
    /// Whether the declarator itself is one of a function.
    fn is_function(&self) -> bool
        ensures { result ≡ is_function self.now.shapes }
    {
        match self.shapes.as_slice() {
            [Shape::Takes(_), ..] => true,
            _ => false,
        }
    }

    /// What it declares.
    fn into_declaration(self, alloc: Global) -> Result<Declaration, AllocError>
        ensures { IfOk result (λ d. d ≡ types.declaration_of self.ty self.named self.shapes) }
    {
        let TypedDeclarator { ty, named, shapes } = self;
        let ty = with_shapes(alloc, shapes, Box::into_inner(ty).into_type())?;
        Ok(Declaration {
            at: named.at,
            name: named.name,
            ty,
        })
    }

    /// What it declares at file scope.
    fn into_external(
        self,
        alloc: Global,
        storage: Option<Storage>,
        init: Option<Box<Init>>,
    ) -> Result<External, AllocError>
        ensures { IfOk result (λ x. x ≡ external_of (is_function self.shapes)
            (types.declaration_of self.ty self.named self.shapes) storage init) }
    {
        let is_function = self.is_function();
        let declaration = self.into_declaration(alloc)?;
        let init = init_of(init);
        if !is_function {
            return Ok(External::Object {
                declaration,
                storage,
                init,
            });
        }
        let end = match init {
            None => FunctionEnd::Nothing,
            Some(init) => FunctionEnd::Init(init),
        };
        Ok(External::Function {
            declaration,
            storage,
            end,
        })
    }
}

/// The initialiser in its box, or none.
fn init_of(init: Option<Box<Init>>) -> Option<Init>
    ensures { result ≡ init }
{
    match init {
        None => None,
        Some(init) => Some(Box::into_inner(init)),
    }
}

/// Reads what stands behind a declarator: its initialiser, or nothing.
#[tactic(auto, unfolding(c_parser_grammar::specs::ParseUnits::object_by))]
fn object(
    alloc: Global,
    scope: &TypedefScope,
    tokens: &mut Tokens<'_>,
    depth: usize,
    storage: Option<Storage>,
    typed: TypedDeclarator,
) -> Result<External, ParseStop>
    ensures { Answers (model.object_by scope.now depth storage typed.ty typed.named typed.shapes tokens.old)
        result tokens.new }
{
    if !tokens.sees(Punct::Assign) {
        return Ok(typed.into_external(alloc, storage, None)?);
    }
    tokens.take();
    let value = Box::new(alloc, init(alloc, scope, tokens, depth)?)?;
    Ok(typed.into_external(alloc, storage, Some(value))?)
}

/// Reads one declarator, behind its type, and its initialiser.
#[tactic(auto, unfolding(crate::specs::model::Parts::object_declarator))]
fn object_declarator(
    alloc: Global,
    scope: &TypedefScope,
    tokens: &mut Tokens<'_>,
    depth: usize,
    storage: Option<Storage>,
    ty: Box<SpecifierType>,
) -> Result<External, ParseStop>
    ensures { Answers (parts.object_declarator scope.now depth storage ty tokens.old) result tokens.new }
{
    let Declarator { name, shapes } = declarator(
        alloc,
        scope,
        tokens,
        depth,
        NameRequirement::Required,
    )?;
    let Some(named) = name else {
        return Err(ParseStop::Refused);
    };
    object(
        alloc,
        scope,
        tokens,
        depth,
        storage,
        TypedDeclarator { ty, named, shapes },
    )
}

/// Reads declarators with commas between them, each with its initialiser, behind those that were found.
#[tactic(auto, using(crate::proofs::Loops::objects_turn, crate::proofs::Loops::objects_end))]
fn objects(
    alloc: Global,
    scope: &TypedefScope,
    tokens: &mut Tokens<'_>,
    depth: usize,
    storage: Option<Storage>,
    base: Box<SpecifierType>,
    found: Seq<External>,
) -> Result<Seq<External>, ParseStop>
    ensures { Answers (model.objects_from scope.now depth storage (length tokens.old) base found tokens.old)
        result tokens.new }
{
    let mut found = found;
    let mut ty = base;
    for _turn in 0..tokens.count_left() {
        let bare = Box::new(alloc, ty.bare()?)?;
        found.push(object_declarator(alloc, scope, tokens, depth, storage, ty)?)?;
        ty = bare;
        if !tokens.sees(Punct::Comma) {
            return Ok(found);
        }
        tokens.take();
    }
    Err(ParseStop::Refused)
}

/// Reads what stands behind the first declarator, of which the further ones have the bare type.
#[tactic(auto, unfolding(c_parser_grammar::specs::ParseUnits::objects_behind))]
fn objects_behind(
    alloc: Global,
    scope: &TypedefScope,
    tokens: &mut Tokens<'_>,
    depth: usize,
    storage: Option<Storage>,
    typed: TypedDeclarator,
    bare: Box<SpecifierType>,
) -> Result<Seq<External>, ParseStop>
    requires { types.without_body typed.ty ≡ bare }
    ensures { Answers (model.objects_behind scope.now depth storage typed.ty typed.named typed.shapes
        tokens.old) result tokens.new }
{
    let mut found = Seq::new(alloc);
    found.push(object(alloc, scope, tokens, depth, storage, typed)?)?;
    if !tokens.sees(Punct::Comma) {
        return Ok(found);
    }
    tokens.take();
    objects(alloc, scope, tokens, depth, storage, bare, found)
}

/// Reads the body of a function behind its brace.
#[tactic(auto, unfolding(c_parser_grammar::specs::ParseUnits::body_behind))]
fn body_behind(
    alloc: Global,
    scope: &TypedefScope,
    tokens: &mut Tokens<'_>,
    depth: usize,
    storage: Option<Storage>,
    declaration: Box<Declaration>,
) -> Result<Seq<External>, ParseStop>
    ensures { Answers (model.body_behind scope.now depth storage declaration tokens.old) result tokens.new }
{
    let body = items(alloc, scope, tokens, depth, depth)?;
    let mut found = Seq::new(alloc);
    found.push(External::Function {
        declaration: Box::into_inner(declaration),
        storage,
        end: FunctionEnd::Body(body),
    })?;
    Ok(found)
}

/// Reads what stands behind the first declarator: the body of a function, or the rest of a declaration.
#[tactic(auto, unfolding(c_parser_grammar::specs::ParseUnits::objects_named))]
fn objects_or_body(
    alloc: Global,
    scope: &TypedefScope,
    tokens: &mut Tokens<'_>,
    depth: usize,
    storage: Option<Storage>,
    typed: TypedDeclarator,
    bare: Box<SpecifierType>,
) -> Result<Seq<External>, ParseStop>
    requires { types.without_body typed.ty ≡ bare }
    ensures { Answers (model.objects_named scope.now depth storage typed.ty typed.named typed.shapes
        tokens.old) result tokens.new }
{
    if tokens.sees(Punct::LeftBrace) {
        tokens.take();
        let declaration = Box::new(alloc, typed.into_declaration(alloc)?)?;
        return body_behind(alloc, scope, tokens, depth, storage, declaration);
    }
    let found = objects_behind(alloc, scope, tokens, depth, storage, typed, bare)?;
    tokens.expect(Punct::Semicolon)?;
    Ok(found)
}

/// Reads what stands behind a type at file scope.
#[tactic(auto, unfolding(c_parser_grammar::specs::ParseUnits::behind_type))]
fn behind_type(
    alloc: Global,
    scope: &TypedefScope,
    tokens: &mut Tokens<'_>,
    depth: usize,
    storage: Option<Storage>,
    base: SpecifierType,
) -> Result<Seq<External>, ParseStop>
    ensures { Answers (model.behind_type scope.now depth storage base tokens.old) result tokens.new }
{
    if tokens.sees(Punct::Semicolon) {
        tokens.take();
        let ty = base.into_type();
        let mut found = Seq::new(alloc);
        found.push(External::Tags { storage, ty })?;
        return Ok(found);
    }
    let ty = Box::new(alloc, base)?;
    let Declarator { name, shapes } = declarator(
        alloc,
        scope,
        tokens,
        depth,
        NameRequirement::Required,
    )?;
    let Some(named) = name else {
        return Err(ParseStop::Refused);
    };
    let bare = Box::new(alloc, ty.bare()?)?;
    let typed = TypedDeclarator { ty, named, shapes };
    objects_or_body(alloc, scope, tokens, depth, storage, typed, bare)
}

/// Reads a declaration at file scope behind its storage word.
#[tactic(auto, unfolding(c_parser_grammar::specs::ParseUnits::behind_storage))]
fn behind_storage(
    alloc: Global,
    scope: &TypedefScope,
    tokens: &mut Tokens<'_>,
    depth: usize,
    storage: Option<Storage>,
) -> Result<Seq<External>, ParseStop>
    ensures { AnswersIn (model.behind_storage scope.now depth storage tokens.old) result scope.now tokens.new }
{
    let base = specifier(alloc, scope, tokens, depth)?;
    behind_type(alloc, scope, tokens, depth, storage, base)
}

/// Reads an external declaration.
#[tactic(auto, unfolding(c_parser_grammar::specs::ParseUnits::external))]
fn external(
    alloc: Global,
    scope: &mut TypedefScope,
    tokens: &mut Tokens<'_>,
    depth: usize,
) -> Result<Seq<External>, ParseStop>
    ensures { AnswersIn (model.external scope.old depth tokens.old) result scope.new tokens.new }
{
    match storage_class_of(tokens.peek()) {
        StorageClass::Typedef => {
            tokens.take();
            typedefs(alloc, scope, tokens, depth)
        }
        StorageClass::Static => {
            tokens.take();
            behind_storage(alloc, scope, tokens, depth, Some(Storage::Static))
        }
        StorageClass::Extern => {
            tokens.take();
            behind_storage(alloc, scope, tokens, depth, Some(Storage::Extern))
        }
        StorageClass::Other => behind_storage(alloc, scope, tokens, depth, None),
    }
}

/// Reads external declarations up to the end.
#[tactic(auto, using(crate::proofs::Loops::externals_loop))]
pub fn externals(
    alloc: Global,
    scope: &mut TypedefScope,
    tokens: &mut Tokens<'_>,
) -> Result<Seq<External>, ParseStop>
    ensures { AnswersUnit (model.externals_from (length tokens.old) scope.old [] tokens.old) result tokens.new }
{
    let mut found = Seq::new(alloc);
    for _turn in 0..tokens.count_left() {
        let left = tokens.count_left();
        if left == 0 {
            return Ok(found);
        }
        let more = external(alloc, scope, tokens, left)?;
        found = append(found, more)?;
    }
    Ok(found)
}
