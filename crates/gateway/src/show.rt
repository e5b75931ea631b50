use crate::error::Fault;
use crate::print::{print_blocks, print_heads};
use crate::reading::{read_code, read_file};
use crate::text::Advice;
use image::{BLOCK, header_at};
use machine::instruction::Instruction;
use refusal::{Reason, Refusal};

fn print_image(rt: &HostRuntime, image: &[u8], code: &[Instruction]) -> Result<(), Fault> {
    let first = header_at(image, 0).ok_or(Reason::ImageLength.at(0))?;
    let number = first.number;
    let blocks = image.len() / BLOCK;
    let count = code.len();
    println!(rt; "image {number}: {blocks} blocks, {count} instructions")?;
    print_blocks(rt, image, code)?;
    Ok(())
}

fn print_refusal(rt: &HostRuntime, file: &[u8], refusal: Refusal) -> Result<(), Fault> {
    let advice = Advice {
        refusal,
        size: file.len(),
    };
    println!(rt; "{refusal}")?;
    println!(rt; "{advice}")?;
    print_heads(rt, file)?;
    Ok(())
}

fn print_file(rt: &HostRuntime, file: &[u8]) -> Result<(), Fault> {
    match read_code(rt.alloc(), file) {
        Ok(code) => print_image(rt, file, code.as_slice()),
        Err(Fault::Refused(refusal)) => print_refusal(rt, file, refusal),
        Err(fault) => Err(fault),
    }
}

pub fn show_file(rt: &HostRuntime, path: String) -> Result<(), Fault> {
    let file = read_file(rt, path)?;
    print_file(rt, file.as_slice())
}
