use cabinet::{Empty, Refused, Started};
use day::Done;
use fixtures::Row;
use machine::instruction::Instruction;
use machine::{Ran, Stop};
use refusal::Refusal;
use std::alloc::{AllocError, Global};
use std::process::Abort;
use std::test::Fail;

// What a memory holds before a call.
pub(crate) const MARK: i32 = -77;

// The registers before an instruction that stands at place 1, and the cells.
pub(crate) const BEFORE: [i32; 8] = [0, 10, -3, 7, i32::MAX, i32::MIN, -1, 1];

pub(crate) const NUMBERED: [i32; 16] = [
    100, 101, 102, 103, 104, 105, 106, 107, 108, 109, 110, 111, 112, 113, 114, 115,
];

pub(crate) fn code_of(heap: Global, rows: &[Row]) -> Result<Vec<Instruction>, AllocError> {
    rows.iter().map(|row| Instruction::from(*row)).collect(heap)
}

// The image with number 7 of a code of up to 62 instructions.
pub(crate) fn image_of(rt: &(impl Abort + AllocGlobal), rows: &[Row]) -> Result<Vec<u8>, Fail> {
    let code = code_of(rt.alloc(), rows)?;
    let mut image = vec![in rt.alloc(); 0; 512]?;
    assert_eq!(rt; image::write(7, code.as_slice(), image.as_mut_slice())?, 1);
    Ok(image)
}

// An instruction, and why it stops.
#[derive(Clone, Copy)]
pub(crate) struct Halting(pub(crate) Row, pub(crate) Stop);

// What a run tells.
pub(crate) fn told(stop: Stop, steps: u32) -> Ran {
    Ran { stop, steps }
}

// What a granted run of a cabinet replies.
pub(crate) fn ran<E>(stop: Stop, steps: u32) -> Result<Done, E> {
    Ok(Done::Ran(told(stop, steps)))
}

// Loads a new cabinet, and ends it.
pub(crate) fn load(
    image: &[u8],
    code: &mut [Instruction],
    memory: &mut [i32],
) -> Result<usize, Refusal> {
    match Empty::new().load(image, code, memory) {
        Ok(Started { cabinet, count }) => {
            cabinet.unload().retire();
            Ok(count)
        }
        Err(Refused { refusal, cabinet }) => {
            cabinet.retire();
            Err(refusal)
        }
    }
}
