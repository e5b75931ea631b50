ghost use Rattle.std.specs.Prelude.{◌≡◌, ◌+◌, ◌*◌, ◌/◌, ◌<◌, ◌≤◌, ◌++◌, length, take, drop, IfOk, FitsSigned, OnOk};
ghost use Rattle.std.specs.Int.{w32};
ghost use Rattle.machine.specs.Form.{formed};
ghost use Rattle.std.specs.List.{prefix_len};
ghost use Rattle.image.specs.Layout.{layout};
ghost use Rattle.image.specs.Blocks.{blocks_for, image};
ghost use Rattle.image.specs.Writing.{write_reply, store_after, Words};
ghost use Rattle.image.specs.Laws.{ReadsAs, SixtyThree};

use crate::encode::encoded_block;
use crate::layout::{BLOCK, CAPACITY, LIMIT, Label};
use machine::instruction::Instruction;
use refusal::{Reason, Refusal};

// By value, so that the range of `d` is known.
fn is_formed(i: Instruction) -> bool
    ensures value { result ≡ formed i }
    ensures word { FitsSigned w32 i.d }
{
    i.has_form()
}

// How many instructions stand before the first that has not the form.
fn leading_formed(code: &[Instruction]) -> usize
    ensures value { result ≡ prefix_len formed code.now }
    ensures words { Words code.now result }
{
    code.iter().take_while(|i| is_formed(**i)).count()
}

fn write_blocks(number: u32, code: &[Instruction], blocks: usize, store: &mut [u8])
    requires count { blocks ≡ blocks_for layout (length code.now) }
    requires few { blocks ≤ 794 }
    requires room { 512 * blocks ≤ length store.old }
    ensures { store.new ≡ image layout number code.now ++ drop (512 * blocks) store.old }
{
    // After `as_chunks_mut` nothing is known of the store, so blocks go by index.
    for (index, part) in code.chunks(CAPACITY).enumerate() {
        let label = Label::new(number, index, blocks);
        store[BLOCK * index..BLOCK * (index + 1)].copy_from_slice(&encoded_block(label, part));
    }
}

fn write_image(number: u32, code: &[Instruction], store: &mut [u8]) -> Result<usize, Refusal>
    ensures words { OnOk result (Words code.now (length code.now)) }
    ensures reply { result ≡ write_reply layout code.now (length store.old) }
    ensures store { store.new ≡ store_after layout number code.now store.old result }
{
    let n = code.len();
    if !(1..=LIMIT * CAPACITY).contains(&n) {
        return Err(Reason::CodeLength.at(0));
    }
    let formed = leading_formed(code);
    if formed != n {
        return Err(Reason::InstructionForm.at(formed / CAPACITY));
    }
    let blocks = n.div_ceil(CAPACITY);
    if store.len() < BLOCK * blocks {
        return Err(Reason::ImageStoreTooShort.at(0));
    }
    write_blocks(number, code, blocks, store);
    Ok(blocks)
}

// Writes the image of `code` to the front of the store and gives its number of blocks.
pub fn write(number: u32, code: &[Instruction], store: &mut [u8]) -> Result<usize, Refusal>
    ensures reply { result ≡ write_reply layout code.now (length store.old) }
    ensures store { store.new ≡ store_after layout number code.now store.old result }
    ensures read_back { IfOk result (λ blocks. ReadsAs layout (take (512 * blocks) store.new) code.now) }
    ensures sample { SixtyThree }
{
    write_image(number, code, store)
}
