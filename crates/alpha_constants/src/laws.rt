//! The laws of recipes, each the contract of a function that does nothing.

ghost use Rattle.std.specs.Prelude.{ℕ};
ghost use Rattle.alpha_constants.specs.Laws.{RecipesMakeWords, RecipesAreShort, RecipesAreShortest};

/// The recipe of a word makes it, in five instructions at most, and of those that are tried no other is shorter.
pub fn recipes_are_shortest()
    ensures makes { RecipesMakeWords }
    ensures short { RecipesAreShort }
    ensures shortest { (n : ℕ) → RecipesAreShortest n }
{}
