//! The data of an image: the bytes of an assembly with the addresses that its fixes ask for.

ghost use Rattle.std.specs.Prelude.{◌≡◌, ◌+◌, ◌<◌, ◌≤◌, ◌^◌, length};
ghost use Rattle.std.specs.List.{All};
ghost use Rattle.std.specs.Int.{w64, to_le_bytes};
ghost use Rattle.alpha_isa.specs.State.{with_part};
ghost use Rattle.alpha_items.specs.Assembly.{IsFix};
ghost use Rattle.alpha_items.specs.Words.{fixed_data};

use alpha_items::item::Fix;

/// Puts an address in the place of 8 bytes, the lowest byte first.
fn put_quad(bytes: &mut [u8], at: usize, address: u64)
    requires { at + 8 ≤ length bytes.old }
    ensures { bytes.new ≡ with_part bytes.old at (to_le_bytes w64 address) }
{
    bytes[at..at + 8].copy_from_slice(&address.to_le_bytes());
}

/// Puts the addresses of the fixes into the data, whose own address is `start`.
pub(crate) fn put_fixes(bytes: &mut [u8], fixes: &[Fix], start: u64)
    requires fixes { All (λ f. IsFix (length bytes.old) f) fixes.now }
    requires start { start < 2 ^ 32 }
    ensures { bytes.new ≡ fixed_data start bytes.old fixes.now }
{
    for fix in fixes {
        put_quad(bytes, fix.at as usize, start + u64::from(fix.offset));
    }
}
