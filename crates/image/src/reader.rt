ghost use Rattle.std.specs.Prelude.{◌≡◌, ℕ, ◌+◌, ◌*◌, ◌/◌, ◌<◌, ◌≤◌, ◌++◌, length, take, drop, map, IfOk, IfErr, OnOk, Some, None, Ok, Err, slice_index, slice_index_or, All, []};
ghost use Rattle.std.specs.Bool.{OnTrue};
ghost use Rattle.std.specs.List.{list_all, flat_map};
ghost use Rattle.std.specs.Simd.{first_chunks};
ghost use Rattle.machine.specs.Form.{formed};
ghost use Rattle.refusal.specs.Faults.{unless};
ghost use Rattle.image.specs.Layout.{decode, layout};
ghost use Rattle.image.specs.Reading.{header_of, header_found, all_zero, header_right, body_right, fault, first_fault, blocks_of, length_fault, four_at, read_reply, code_after, content};
ghost use Rattle.image.specs.Laws.{WrittenAs, DamageFound};

use crate::layout::{BLOCK, COVERED, HEADER, LIMIT, Label, WIDTH};
use crc::is_sealed;
use machine::instruction::Instruction;
use refusal::{Reason, Refusal};

// What the header and the last two bytes of a block hold.
#[derive(Clone, Copy, PartialEq, Eq, Debug)]
pub struct Header {
    pub number: u32,
    pub index: u16,
    pub blocks: u16,
    pub count: u8,
    pub check: u16,
}

impl Header {
    fn label(self) -> Label
        ensures { result ≡ record { number = self.number; index = self.index; blocks = self.blocks } }
    {
        Label {
            number: self.number,
            index: self.index,
            blocks: self.blocks,
        }
    }
}

fn header_in(block: &[u8; BLOCK]) -> Header
    ensures { result ≡ header_of block.now }
{
    let [n0, n1, n2, n3, i0, i1, b0, b1, count, .., c0, c1] = *block;
    Header {
        number: u32::from_be_bytes([n0, n1, n2, n3]),
        index: u16::from_be_bytes([i0, i1]),
        blocks: u16::from_be_bytes([b0, b1]),
        count,
        check: u16::from_be_bytes([c0, c1]),
    }
}

// The header of the block of this index, if the image is long enough to have one.
pub fn header_at(image: &[u8], index: usize) -> Option<Header>
    ensures { result ≡ header_found image.now index }
{
    let (blocks, _) = image.as_chunks::<BLOCK>();
    blocks.get(index).map(header_in)
}

fn blocks_in(image: &[u8]) -> Result<&[[u8; BLOCK]], Refusal>
    ensures whole { OnOk result (length_fault layout (length image.now) ≡ None) }
    ensures cut { IfOk result (λ blocks. blocks.now ≡ blocks_of image.now) }
    ensures len { IfOk result (λ blocks. length blocks.now ≡ length image.now / 512) }
    ensures number { IfOk result (λ blocks. four_at (slice_index_or blocks.now 0 []) 0 ≡ four_at image.now 0) }
    ensures err { IfErr result (λ e. length_fault layout (length image.now) ≡ Some e) }
{
    let (blocks, rest) = image.as_chunks::<BLOCK>();
    if !rest.is_empty() || blocks.is_empty() || blocks.len() > LIMIT {
        return Err(Reason::ImageLength.at(0));
    }
    Ok(blocks)
}

// The number of blocks of an image.
pub fn block_count(image: &[u8]) -> Result<usize, Refusal>
    ensures { result ≡ unless (length_fault layout (length image.now)) (Ok (length image.now / 512)) }
{
    Ok(blocks_in(image)?.len())
}

fn decoded(bytes: &[u8; WIDTH]) -> Instruction
    ensures { result ≡ decode bytes.now }
{
    let [op, r, s, t, d0, d1, d2, d3] = *bytes;
    let d = i32::from_be_bytes([d0, d1, d2, d3]);
    Instruction { op, r, s, t, d }
}

fn are_formed(slots: &[[u8; WIDTH]]) -> bool
    ensures { result ≡ list_all (λ slot. formed (decode slot)) slots.now }
{
    slots.iter().all(|slot| decoded(slot).has_form())
}

fn are_zero(bytes: &[u8]) -> bool
    ensures { result ≡ all_zero bytes.now }
{
    bytes.iter().all(|b| *b == 0)
}

fn is_header_right(block: &[u8; BLOCK], label: Label) -> bool
    ensures right { result ≡ header_right layout label.number label.index label.blocks block.now }
    ensures few { OnTrue result (slice_index block.now 8 ≤ 62) }
{
    let header = header_in(block);
    header.label() == label
        && label.allows(header.count)
        && block[9] == 0
        && block[10] == 0
        && block[11] == 0
}

// The bytes of each instruction of a block. That there are at most 62 stands in clauses and not in a type: blocks are read where
// they lie, and a list of checked ones would need a store.
fn slots_of(block: &[u8; BLOCK]) -> &[[u8; WIDTH]]
    requires { slice_index block.now 8 ≤ 62 }
    ensures slots { result.now ≡ first_chunks 8 (slice_index block.now 8) (drop 12 block.now) }
    ensures len { length result.now ≡ slice_index block.now 8 }
{
    let (slots, _) = block[HEADER..COVERED].as_chunks::<WIDTH>();
    &slots[..usize::from(block[8])]
}

fn is_body_right(block: &[u8; BLOCK]) -> bool
    requires { slice_index block.now 8 ≤ 62 }
    ensures { result ≡ body_right layout block.now }
{
    let slots = slots_of(block);
    are_formed(slots) && are_zero(&block[HEADER + WIDTH * slots.len()..COVERED])
}

// The instruction count of a right block, or its first fault.
#[tactic(auto, unfolding(crate::specs::Reading::fault))]
fn check_block(block: &[u8; BLOCK], label: Label) -> Result<usize, Refusal>
    ensures { result ≡ unless (fault layout label.number label.index label.blocks block.now)
        (Ok (slice_index block.now 8)) }
{
    let index = usize::from(label.index);
    if !is_sealed(block) {
        return Err(Reason::BlockCheck.at(index));
    }
    if !is_header_right(block, label) {
        return Err(Reason::BlockHeader.at(index));
    }
    if !is_body_right(block) {
        return Err(Reason::InstructionForm.at(index));
    }
    Ok(usize::from(block[8]))
}

// The instruction count of an image, or its first fault in a block.
fn check_blocks(number: u32, blocks: &[[u8; BLOCK]]) -> Result<usize, Refusal>
    requires { length blocks.now ≤ 794 }
    ensures reply { result ≡ unless (first_fault layout number (length blocks.now) 0 blocks.now)
        (Ok (length (content layout blocks.now))) }
    ensures few { OnOk result (All (λ block. slice_index block 8 ≤ 62) blocks.now) }
{
    let mut total = 0;
    for (index, block) in blocks.iter().enumerate() {
        let label = Label::new(number, index, blocks.len());
        total += check_block(block, label)?;
    }
    Ok(total)
}

// After `zip` nothing is known of the instructions, so slots go by index.
fn decode_part(slots: &[[u8; WIDTH]], part: &mut [Instruction])
    requires { length part.old ≡ length slots.now }
    ensures { part.new ≡ map decode slots.now }
{
    for (k, instruction) in part.iter_mut().enumerate() {
        *instruction = decoded(&slots[k]);
    }
}

fn decode_blocks(blocks: &[[u8; BLOCK]], code: &mut [Instruction])
    requires few { All (λ block. slice_index block 8 ≤ 62) blocks.now }
    requires room { length (content layout blocks.now) ≤ length code.old }
    ensures { let held = content layout blocks.now in code.new ≡ held ++ drop (length held) code.old }
{
    // After `split_at_mut` in a loop nothing is known of the whole store, so the offset is kept.
    let mut at = 0;
    for block in blocks {
        let slots = slots_of(block);
        let end = at + slots.len();
        decode_part(slots, &mut code[at..end]);
        at = end;
    }
}

fn read_image(image: &[u8], code: &mut [Instruction]) -> Result<usize, Refusal>
    ensures reply { result ≡ read_reply layout image.now (length code.old) }
    ensures store { code.new ≡ code_after layout image.now code.old result }
{
    let blocks = blocks_in(image)?;
    let number = header_in(&blocks[0]).number;
    let count = check_blocks(number, blocks)?;
    if code.len() < count {
        return Err(Reason::CodeStoreTooShort.at(0));
    }
    decode_blocks(blocks, code);
    Ok(count)
}

// Decodes an image to the front of the code store and gives its number of instructions.
pub fn read(image: &[u8], code: &mut [Instruction]) -> Result<usize, Refusal>
    ensures reply { result ≡ read_reply layout image.now (length code.old) }
    ensures store { code.new ≡ code_after layout image.now code.old result }
    ensures one_form { IfOk result (λ n. WrittenAs layout image.now (four_at image.now 0) (take n code.new)) }
    ensures damage { DamageFound layout image.now result }
{
    read_image(image, code)
}
