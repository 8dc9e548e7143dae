//! Laws of the image format. Each is the contract of a function that does nothing.

ghost use Rattle.std.specs.Prelude.{◌≡◌, ◌+◌, ◌≤◌, List, ℕ, None, length, take};
ghost use Rattle.alpha_isa.specs.Program.{Program};
ghost use Rattle.alpha_isa.specs.ImageFormat.{IsImage};
ghost use Rattle.alpha_image.specs.ImageFault.{image_fault};
ghost use Rattle.alpha_image.specs.Limits.{most_image};

/// The bytes of an image have no place at which they stop being one.
pub fn images_have_no_fault()
    ensures { (bytes : List ℕ) (p : Program) → IsImage bytes p → image_fault bytes ≡ None }
{}

/// Bytes are those of at most one image.
pub fn one_image()
    ensures { (bytes : List ℕ) (p q : Program) → IsImage bytes p → IsImage bytes q → p ≡ q }
{}

/// No image has more than 1,140,850,712 bytes.
pub fn images_have_a_greatest_length()
    ensures { (bytes : List ℕ) (p : Program) → IsImage bytes p → length bytes ≤ most_image }
{}

/// What stops longer bytes from being an image shows within as many as an image may have and one more, at
/// the same place.
pub fn long_bytes_show_their_fault()
    ensures { (bytes : List ℕ) → most_image + 1 ≤ length bytes →
        image_fault (take (most_image + 1) bytes) ≡ image_fault bytes }
{}
