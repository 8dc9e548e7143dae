//! The shortest recipe of a word.

ghost use Rattle.std.specs.Prelude.{◌≡◌, ◌≤◌};
ghost use Rattle.alpha_constants.specs.Recipes as recipes;

use crate::parts::{high_part, low_part, near_word};
use crate::recipe::{Finish, Recipe};

/// The number of instructions for the displacements of a number.
fn near_length(word: u64) -> u8
    ensures { result ≡ recipes.near_length word }
{
    if high_part(word) == 0 || low_part(word) == 0 {
        1
    } else {
        2
    }
}

/// The number of instructions for the displacements that are added to a word.
fn lower_length(word: u64) -> u8
    ensures { result ≡ recipes.lower_length word }
{
    u8::from(high_part(word) != 0) + u8::from(low_part(word) != 0)
}

/// The number of instructions of a finish.
fn finish_length(finish: Finish) -> u8
    ensures value { result ≡ recipes.finish_length finish }
    ensures small { result ≤ 3 }
{
    match finish {
        Finish::Nothing => 0,
        Finish::ShiftLeft(_) => 1,
        Finish::ShiftRight(_) => 1,
        Finish::LowHalf => 1,
        Finish::AddLower(lower) => 1 + lower_length(lower),
    }
}

/// The number of instructions of a recipe.
pub fn recipe_length(recipe: Recipe) -> u8
    ensures { result ≡ recipes.recipe_length recipe }
{
    near_length(recipe.near) + finish_length(recipe.finish)
}

/// The word that a finish makes of one.
fn finish_word(finish: Finish, word: u64) -> u64
    ensures { result ≡ recipes.finish_word finish word }
{
    match finish {
        Finish::Nothing => word,
        Finish::ShiftLeft(places) => word << (places % 64),
        Finish::ShiftRight(places) => word >> (places % 64),
        Finish::LowHalf => word & 0xffff_ffff,
        Finish::AddLower(lower) => (word << 32).wrapping_add(near_word(lower)),
    }
}

/// The word that a recipe makes.
pub fn recipe_word(recipe: Recipe) -> u64
    ensures { result ≡ recipes.recipe_word recipe }
{
    finish_word(recipe.finish, near_word(recipe.near))
}

/// The number of zeros at the low end of a word.
fn low_zeros(word: u64) -> u8
    ensures value { result ≡ recipes.low_zeros word }
    ensures small { result ≤ 63 }
{
    (word.trailing_zeros() % 64) as u8
}

/// The number of zeros at the high end of a word.
fn high_zeros(word: u64) -> u8
    ensures value { result ≡ recipes.high_zeros word }
    ensures small { result ≤ 63 }
{
    (word.leading_zeros() % 64) as u8
}

/// The low half by displacements, and what is left of the word above it.
fn by_halves(word: u64) -> Recipe
    ensures { result ≡ recipes.by_halves word }
{
    Recipe {
        near: word.wrapping_sub(near_word(word)) >> 32,
        finish: Finish::AddLower(word),
    }
}

/// A number that is moved up.
fn by_shift_left(word: u64) -> Recipe
    ensures { result ≡ recipes.by_shift_left word }
{
    let places = low_zeros(word);
    Recipe {
        near: word >> places,
        finish: Finish::ShiftLeft(places),
    }
}

/// A number that is moved down, with zeros below it.
fn by_shift_right(word: u64) -> Recipe
    ensures { result ≡ recipes.by_shift_right word }
{
    let places = high_zeros(word);
    Recipe {
        near: word << places,
        finish: Finish::ShiftRight(places),
    }
}

/// A number that is moved down, with ones below it.
fn by_ones_shifted_right(word: u64) -> Recipe
    ensures { result ≡ recipes.by_ones_shifted_right word }
{
    let places = high_zeros(word);
    Recipe {
        near: (word << places).wrapping_add((1 << places) - 1),
        finish: Finish::ShiftRight(places),
    }
}

/// The first of two recipes where it makes the word and is no longer.
fn better(word: u64, first: Recipe, second: Recipe) -> Recipe
    ensures { result ≡ recipes.better_recipe word first second }
{
    if recipe_word(first) == word && recipe_length(first) <= recipe_length(second) {
        first
    } else {
        second
    }
}

/// The shortest recipe of a word.
pub fn recipe_of(word: u64) -> Recipe
    ensures { result ≡ recipes.recipe_of word }
{
    let halves = by_halves(word);
    let ones = better(word, by_ones_shifted_right(word), halves);
    let right = better(word, by_shift_right(word), ones);
    let left = better(word, by_shift_left(word), right);
    let low = better(
        word,
        Recipe {
            near: word,
            finish: Finish::LowHalf,
        },
        left,
    );
    better(
        word,
        Recipe {
            near: word,
            finish: Finish::Nothing,
        },
        low,
    )
}
