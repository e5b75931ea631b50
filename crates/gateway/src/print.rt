use crate::text::{Assembly, Head};
use image::{BLOCK, CAPACITY, LIMIT};
use machine::instruction::Instruction;
use std::io;

// The head of the block at a place.
pub fn print_head(rt: &HostRuntime, block: &[u8], place: usize) -> io::Result<()> {
    if let Some(head) = Head::of(block, place) {
        println!(rt; "  {head}")?;
    }
    Ok(())
}

// The heads of the whole blocks of a file, of no more than an image can have.
pub fn print_heads(rt: &HostRuntime, file: &[u8]) -> io::Result<()> {
    for (place, block) in file.chunks_exact(BLOCK).take(LIMIT).enumerate() {
        print_head(rt, block, place)?;
    }
    Ok(())
}

fn print_instruction(
    rt: &HostRuntime,
    address: usize,
    instruction: &Instruction,
) -> io::Result<()> {
    let line = Assembly(*instruction);
    println!(rt; "  {address:>5}: {line}")
}

// Instructions from an address on.
fn print_part(rt: &HostRuntime, first: usize, part: &[Instruction]) -> io::Result<()> {
    for (k, instruction) in part.iter().enumerate() {
        print_instruction(rt, first.saturating_add(k), instruction)?;
    }
    Ok(())
}

pub fn print_code(rt: &HostRuntime, code: &[Instruction]) -> io::Result<()> {
    print_part(rt, 0, code)
}

// The code of an image, with the head of each block before its instructions.
pub fn print_blocks(rt: &HostRuntime, image: &[u8], code: &[Instruction]) -> io::Result<()> {
    let blocks = image.chunks_exact(BLOCK).zip(code.chunks(CAPACITY));
    for (place, (block, part)) in blocks.enumerate() {
        print_head(rt, block, place)?;
        print_part(rt, place.saturating_mul(CAPACITY), part)?;
    }
    Ok(())
}
