#![tactic(auto)]

ghost use Rattle.std.specs.Prelude.{◌≡◌, ◌+◌, ◌*◌, ◌%◌, ◌^◌, ◌<◌, length, codes, bit_xor, slice_index};
ghost use Rattle.crc.specs.Crc.{feed, bits_of, crc, sealed, BurstDetected};

// The generator times `x`, as polynomials over the bits, cut to 16 bits.
fn times_generator(x: u16) -> u16
    ensures { result ≡ bit_xor (bit_xor (x * 2 ^ 12 % 2 ^ 16) (x * 2 ^ 5 % 2 ^ 16)) x }
{
    (x << 12) ^ (x << 5) ^ x
}

// All eight bits at once, with no branch and no table: `q` times the generator is what is taken off.
fn with_byte(register: u16, byte: u8) -> u16
    ensures { result ≡ feed (bits_of byte) register }
{
    let x = (register >> 8) ^ u16::from(byte);
    let q = x ^ (x >> 4);
    times_generator(q) ^ (register << 8)
}

pub fn crc16(bytes: &[u8]) -> u16
    ensures value { result ≡ crc bytes.now }
    ensures sample { crc (codes "123456789") ≡ 0x29b1 }
{
    let mut register = 0xffff;
    for byte in bytes {
        register = with_byte(register, *byte);
    }
    register
}

// The CRC that two bytes hold, high byte first.
fn stored(check: &[u8; 2]) -> u16
    ensures { result ≡ slice_index check.now 0 * 256 + slice_index check.now 1 }
{
    u16::from_be_bytes(*check)
}

// Whether the last two bytes are the CRC of those before them.
pub fn is_sealed(text: &[u8]) -> bool
    ensures value { result ≡ sealed text.now }
    ensures burst { BurstDetected text.now }
{
    let Some((covered, check)) = text.split_last_chunk::<2>() else {
        return false;
    };
    crc16(covered) == stored(check)
}
