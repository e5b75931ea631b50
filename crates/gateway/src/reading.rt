ghost use Rattle.std.specs.Prelude.{◌≡◌, IfOk};
ghost use Rattle.image.specs.Layout.{layout};
ghost use Rattle.image.specs.Reading.{code_of};

use crate::error::Fault;
use image::{CAPACITY, block_count};
use machine::instruction::Instruction;
use std::alloc::{AllocError, Global};
use std::fs;

pub fn read_file(rt: &HostRuntime, path: String) -> Result<Vec<u8>, Fault> {
    match fs::read(rt, path.as_str()) {
        Ok(file) => Ok(file),
        Err(error) => Err(Fault::Unreadable(path, error)),
    }
}

pub const BLANK: Instruction = Instruction {
    op: 0,
    r: 0,
    s: 0,
    t: 0,
    d: 0,
};

// Room for the code of an image, if it can be one.
pub fn code_store(heap: Global, image: &[u8]) -> Result<Vec<Instruction>, AllocError> {
    let blocks = block_count(image).unwrap_or(0);
    vec![in heap; BLANK; CAPACITY * blocks]
}

// The code that an image holds.
pub fn read_code(heap: Global, image: &[u8]) -> Result<Vec<Instruction>, Fault>
    ensures { IfOk result (λ code. code.items ≡ code_of layout image.now) }
{
    let mut code = code_store(heap, image)?;
    let count = image::read(image, code.as_mut_slice())?;
    code.truncate(count);
    Ok(code)
}
