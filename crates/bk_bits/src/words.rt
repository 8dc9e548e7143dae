//! Bits of words: number k stands in word k / 64, in the bit k % 64.

ghost use Rattle.std.specs.Prelude.{◌≡◌, ℕ, ◌+◌, ◌*◌, ◌/◌, ◌%◌, ◌<◌, ◌≤◌, ◌^◌, ◌==◌, ◌||◌, not, true, false, length, slice_index, slice_set, bit_and, bit_or, IfSome, IfNone};
ghost use Rattle.std.specs.Int.{w64, bit_at, bit_not};
ghost use Rattle.bk_bits.specs.model.Words.{is_member, AreMade, adds};

/// A word with a bit that is set.
#[tactic(auto, using(crate::proofs::Bits::one_bit))]
fn with_bit(word: u64, bit: u32) -> u64
    requires { bit < 64 }
    ensures { result ≡ bit_or word (2 ^ bit) }
{
    word | 1 << bit
}

/// A word with a bit that is clear.
#[tactic(auto, using(crate::proofs::Bits::one_bit))]
fn without_bit(word: u64, bit: u32) -> u64
    requires { bit < 64 }
    ensures { result ≡ bit_and word (bit_not w64 (2 ^ bit)) }
{
    word & !(1 << bit)
}

/// Whether a number is a member.
#[tactic(auto, using(crate::proofs::Bits::member_is))]
pub(crate) fn is_in(words: &[u64], k: u32) -> bool
    requires { k / 64 < length words.now }
    ensures { result ≡ is_member words.now k }
{
    words[(k / 64) as usize] >> (k % 64) & 1 == 1
}

/// Makes a number a member.
pub(crate) fn put_in(words: &mut Vec<u64>, k: u32)
    requires { k / 64 < length words.now.items }
    ensures { words.new.items
        ≡ slice_set words.old.items (k / 64) (bit_or (slice_index words.old.items (k / 64)) (2 ^ (k % 64))) }
{
    let place = (k / 64) as usize;
    words[place] = with_bit(words[place], k % 64);
}

/// Makes a number no member.
pub(crate) fn take_out(words: &mut Vec<u64>, k: u32)
    requires { k / 64 < length words.now.items }
    ensures { words.new.items
        ≡ slice_set words.old.items (k / 64)
        (bit_and (slice_index words.old.items (k / 64)) (bit_not w64 (2 ^ (k % 64)))) }
{
    let place = (k / 64) as usize;
    words[place] = without_bit(words[place], k % 64);
}

/// Puts the bits of another word into one, and says whether it or one before has a bit more than it had.
fn unite_word(words: &mut Vec<u64>, place: usize, other: u64, grew: bool) -> bool
    requires { place < length words.now.items }
    ensures word { words.new.items
        ≡ slice_set words.old.items place (bit_or (slice_index words.old.items place) other) }
    ensures grew { result
        ≡ (grew || not (bit_or (slice_index words.old.items place) other == slice_index words.old.items place)) }
{
    let old = words[place];
    let new = old | other;
    words[place] = new;
    grew || new != old
}

/// Puts the members of another set in, and says whether there is one more.
#[tactic(auto, using(crate::proofs::Bits::none_made, crate::proofs::Bits::one_made, crate::proofs::Bits::one_adds))]
pub(crate) fn unite(words: &mut Vec<u64>, others: &[u64]) -> bool
    requires { length others.now ≡ length words.now.items }
    ensures made { AreMade bit_or words.old.items others.now words.new.items (length others.now) }
    ensures fits { (p : ℕ) → slice_index words.new.items p < 2 ^ 64 }
    ensures grew { result ≡ adds words.old.items others.now (length others.now) }
{
    let mut grew = false;
    for place in 0..others.len() {
        grew = unite_word(words, place, others[place], grew);
    }
    grew
}

/// Takes the members of another set out.
#[tactic(auto, using(crate::proofs::Bits::none_made, crate::proofs::Bits::one_made))]
pub(crate) fn take_away(words: &mut Vec<u64>, others: &[u64])
    requires { length others.now ≡ length words.now.items }
    ensures made { AreMade (λ w v. bit_and w (bit_not w64 v)) words.old.items others.now words.new.items
        (length others.now) }
    ensures fits { (p : ℕ) → slice_index others.now p < 2 ^ 64 }
{
    for place in 0..others.len() {
        words[place] &= !others[place];
    }
}

/// Takes over the words of another set.
#[tactic(auto, using(crate::proofs::Bits::none_made, crate::proofs::Bits::one_made))]
pub(crate) fn take_over(words: &mut Vec<u64>, others: &[u64])
    requires { length others.now ≡ length words.now.items }
    ensures { AreMade (λ w v. v) words.old.items others.now words.new.items (length others.now) }
{
    for place in 0..others.len() {
        words[place] = others[place];
    }
}

/// The first bit of a word that is set, from one on.
#[tactic(auto, using(crate::proofs::Bits::first_is, crate::proofs::Bits::first_fits, crate::proofs::Bits::none_from))]
fn first_bit(word: u64, from: u32) -> Option<u32>
    requires { from < 64 }
    ensures some { IfSome result (λ i. (from ≤ i) × (i < 64) × (bit_at word i ≡ 1)
        × ((j : ℕ) → from ≤ j → j < i → bit_at word j ≡ 0)) }
    ensures none { IfNone result ((j : ℕ) → from ≤ j → j < 64 → bit_at word j ≡ 0) }
{
    let high = word >> from;
    if high == 0 {
        None
    } else {
        Some(from + high.trailing_zeros())
    }
}

/// The first member of a word from a bit on.
#[tactic(auto, using(crate::proofs::Bits::member_there, crate::proofs::Bits::none_there))]
fn next_in_word(words: &[u64], place: usize, from: u32) -> Option<u32>
    requires within { place < length words.now }
    requires few { length words.now ≤ 2 ^ 26 }
    requires bit { from < 64 }
    ensures some { IfSome result (λ m. (m / 64 ≡ place) × (from ≤ m % 64) × (is_member words.now m ≡ true)
        × ((j : ℕ) → j / 64 ≡ place → from ≤ j % 64 → j < m → is_member words.now j ≡ false)) }
    ensures none { IfNone result ((j : ℕ) → j / 64 ≡ place → from ≤ j % 64 → is_member words.now j ≡ false) }
{
    match first_bit(words[place], from) {
        Some(bit) => Some(place as u32 * 64 + bit),
        None => None,
    }
}

/// The bit from which a word is looked at, where numbers are looked for from one on.
fn first_of_word(place: usize, k: u32) -> u32
    requires { k / 64 ≤ place }
    ensures fits { result < 64 }
    ensures from { (j : ℕ) → j / 64 ≡ place → k ≤ j → result ≤ j % 64 }
    ensures least { (j : ℕ) → j / 64 ≡ place → result ≤ j % 64 → k ≤ j }
{
    if place == (k / 64) as usize {
        k % 64
    } else {
        0
    }
}

/// The least member that is at least a number.
#[tactic(auto, using(crate::proofs::Bits::none_before, crate::proofs::Bits::none_further, crate::proofs::Bits::found_member, crate::proofs::Bits::none_at_all))]
pub(crate) fn next_in(words: &[u64], k: u32) -> Option<u32>
    requires { length words.now ≤ 2 ^ 26 }
    ensures some { IfSome result (λ m. (k ≤ m) × (is_member words.now m ≡ true)
        × ((j : ℕ) → k ≤ j → j < m → is_member words.now j ≡ false)) }
    ensures none { IfNone result ((j : ℕ) → k ≤ j → is_member words.now j ≡ false) }
{
    for place in (k / 64) as usize..words.len() {
        if let Some(member) = next_in_word(words, place, first_of_word(place, k)) {
            return Some(member);
        }
    }
    None
}
