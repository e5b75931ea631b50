ghost use Rattle.std.specs.Prelude.{◌≡◌, ◌*◌, ◌≤◌, length, take};
ghost use Rattle.std.specs.List.{flat_map};
ghost use Rattle.crc.specs.Crc.{crc};
ghost use Rattle.image.specs.Layout.{encode, layout};
ghost use Rattle.image.specs.Blocks.{two, header, block};

use crate::layout::{BLOCK, COVERED, HEADER, Label, WIDTH};
use crc::crc16;
use machine::instruction::Instruction;

fn encoded(i: Instruction) -> [u8; WIDTH]
    ensures { result ≡ encode i }
{
    let [d0, d1, d2, d3] = i.d.to_be_bytes();
    [i.op, i.r, i.s, i.t, d0, d1, d2, d3]
}

fn encoded_header(label: Label, count: u8) -> [u8; HEADER]
    ensures { result ≡ header label.number label.index label.blocks count }
{
    let [n0, n1, n2, n3] = label.number.to_be_bytes();
    let [i0, i1] = label.index.to_be_bytes();
    let [b0, b1] = label.blocks.to_be_bytes();
    [n0, n1, n2, n3, i0, i1, b0, b1, count, 0, 0, 0]
}

// After `as_chunks_mut` nothing is known of the bytes, so instructions go by index.
fn encode_part(bytes: &mut [u8], part: &[Instruction])
    requires { length bytes.old ≡ 8 * length part.now }
    ensures { bytes.new ≡ flat_map encode part.now }
{
    for (k, i) in part.iter().enumerate() {
        bytes[WIDTH * k..WIDTH * (k + 1)].copy_from_slice(&encoded(*i));
    }
}

// The check of the bytes before the last two.
fn check_of(block: &[u8; BLOCK]) -> [u8; 2]
    ensures { result ≡ two (crc (take 510 block.now)) }
{
    crc16(&block[..COVERED]).to_be_bytes()
}

// The block of this label that holds `part`.
pub(crate) fn encoded_block(label: Label, part: &[Instruction]) -> [u8; BLOCK]
    requires { length part.now ≤ 62 }
    ensures { result ≡ block layout label.number label.index label.blocks part.now }
{
    let mut block = [0; BLOCK];
    // The count is proved to fit: `try_from` would add a refusal that never comes.
    block[..HEADER].copy_from_slice(&encoded_header(label, part.len() as u8));
    encode_part(&mut block[HEADER..HEADER + WIDTH * part.len()], part);
    let check = check_of(&block);
    block[COVERED..].copy_from_slice(&check);
    block
}
