ghost use Rattle.std.specs.Prelude.{◌≡◌};
ghost use Rattle.gateway.specs.Damage.{inverted};

// Inverts the bits of `mask` in the bytes at `at` and `at + 1`, as a line that disturbs up to sixteen
// successive bits does. If there are not both, nothing changes.
pub fn invert_bits(bytes: &mut [u8], at: usize, mask: u16)
    ensures { bytes.new ≡ inverted bytes.old at mask }
{
    if bytes.len() < 2 || bytes.len() - 2 < at {
        return;
    }
    let bits = mask.to_be_bytes();
    bytes[at] ^= bits[0];
    bytes[at + 1] ^= bits[1];
}
