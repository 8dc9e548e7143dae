//! Laws of words and of runs that crates above rest on. Each is the contract of a function that does nothing.

ghost use Rattle.std.specs.Prelude.{◌≡◌, ℕ, ◌+◌, ◌*◌, ◌%◌, ◌^◌, ◌<◌, ◌≤◌, List, ℤ, ◌+ℤ◌, ◌*ℤ◌, FitsSigned};
ghost use Rattle.std.specs.Int.{Width, w64, int_wrap};
ghost use mir.Val.{bits};
ghost use Rattle.alpha_isa.specs.Program.{Program, HoldsSame, HasZerosCut};
ghost use Rattle.alpha_isa.specs.State.{State};
ghost use Rattle.alpha_isa.specs.Step.{exec, go_on};
ghost use Rattle.alpha_isa.specs.Behave.{behave_a};
ghost use Rattle.alpha_isa.specs.Laws.{Extends, output_at};
ghost use Rattle.alpha_isa.specs.Arithmetic.{word_from, signed_value, sign_extension, kept_bytes};

/// Sign extension keeps the low bits and their signed number. What is extended twice is extended once.
pub fn words_extend()
    ensures low { (w : Width) (n : ℕ) → bits w ≤ 64 → sign_extension w n % 2 ^ bits w ≡ n % 2 ^ bits w }
    ensures below { (w : Width) (n : ℕ) → bits w ≤ 64 → sign_extension w n < 2 ^ 64 }
    ensures again { (w : Width) (n : ℕ) → bits w ≤ 64 → sign_extension w (sign_extension w n) ≡ sign_extension w n }
    ensures number { (w : Width) (n : ℕ) → bits w ≤ 64 → signed_value w64 (sign_extension w n) ≡ signed_value w n }
    ensures read { (w : Width) (z : ℤ) → bits w ≤ 64 → FitsSigned w z → signed_value w (word_from z) ≡ z }
{}

/// Sums and products that are extended need no more than the low bits of their operands, and are the
/// wrapped signed ones. A mask of four bytes extends with zeros.
pub fn words_wrap()
    ensures sum { (w : Width) (n k : ℕ) → bits w ≤ 64 →
        sign_extension w (sign_extension w n + k) ≡ sign_extension w (n + k) }
    ensures product { (w : Width) (n k : ℕ) → bits w ≤ 64 →
        sign_extension w (sign_extension w n * k) ≡ sign_extension w (n * k) }
    ensures signed_sum { (w : Width) (n k : ℕ) →
        signed_value w (n + k) ≡ int_wrap w (signed_value w n +ℤ signed_value w k) }
    ensures signed_product { (w : Width) (n k : ℕ) →
        signed_value w (n * k) ≡ int_wrap w (signed_value w n *ℤ signed_value w k) }
    ensures long { (n : ℕ) → kept_bytes 8 n 0x0F ≡ n % 2 ^ 32 }
{}

/// Steps after steps are steps of one run, and the output only grows: that of more steps goes on with
/// that of fewer.
pub fn runs_compose()
    ensures split { (p : Program) (k n : ℕ) (s : State) → exec p (k + n) s ≡ go_on (exec p k s) (exec p n) }
    ensures grows { (p : Program) (k n : ℕ) (s : State) → k ≤ n →
        Extends (output_at (exec p k s)) (output_at (exec p n s)) }
{}

/// Images that hold the same behave alike: it does not show which of the zeros at the end of the data are
/// bytes of the image.
pub fn zeros_do_not_show()
    ensures { (p q : Program) (stack : ℕ) (input : List ℕ) (m : ℕ) → HoldsSame p q →
        behave_a q stack input m ≡ behave_a p stack input m }
{}

/// An image has one form in which its zeros are cut.
pub fn zeros_are_cut_in_one_way()
    ensures { (p q r : Program) → HasZerosCut p q → HasZerosCut p r → q ≡ r }
{}
