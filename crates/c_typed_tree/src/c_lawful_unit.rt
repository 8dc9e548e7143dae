//! Typed units that are lawful (C99 6.5 to 6.9).

ghost use Rattle.c_typed_tree.specs.Lawful.{IsLawfulUnit};
ghost use Rattle.c_typed_tree.specs.model.c_lawful_unit.Propositions.{lawful_unit_is_proposition};

use crate::TypedUnit;

/// A unit that is lawful: its structs are laid out, its objects of static storage lie in order and hold what such
/// objects may, its functions are well typed, exactly one of them is `int main(void)`, and its parts can be counted.
#[derive(Drop)]
pub struct LawfulUnit {
    pub unit: TypedUnit,
    pub ghost lawful: { IsLawfulUnit unit } by { lawful_unit_is_proposition unit },
}
