use crate::samples::MARK;
use fixtures::{Row, UNTOUCHED};
use machine::instruction::Instruction;
use std::alloc::{AllocError, Global};
use std::test::Fail;

#[derive(Clone, Copy)]
struct Encoded(Row, [u8; 8]);

// The ends of the range of d, and each register at 7 in the ops that use it.
static ENCODED: [Encoded; 9] = [
    Encoded(Row(7, 7, 7, 0, i32::MIN), [7, 7, 7, 0, 0x80, 0, 0, 0]),
    Encoded(
        Row(16, 7, 7, 0, i32::MAX),
        [16, 7, 7, 0, 0x7f, 0xff, 0xff, 0xff],
    ),
    Encoded(Row(10, 7, 0, 0, -1), [10, 7, 0, 0, 0xff, 0xff, 0xff, 0xff]),
    Encoded(Row(8, 7, 7, 0, 1000), [8, 7, 7, 0, 0, 0, 0x03, 0xe8]),
    Encoded(Row(3, 7, 7, 7, 0), [3, 7, 7, 7, 0, 0, 0, 0]),
    Encoded(Row(6, 7, 7, 7, 0), [6, 7, 7, 7, 0, 0, 0, 0]),
    Encoded(Row(0, 7, 0, 0, 0), [0, 7, 0, 0, 0, 0, 0, 0]),
    Encoded(Row(1, 7, 0, 0, 0), [1, 7, 0, 0, 0, 0, 0, 0]),
    Encoded(Row(2, 7, 0, 0, 0), [2, 7, 0, 0, 0, 0, 0, 0]),
];

fn all_instructions(heap: Global) -> Result<Vec<Instruction>, AllocError> {
    ENCODED
        .iter()
        .map(|encoded| Instruction::from(encoded.0))
        .collect(heap)
}

// The block of image 0xfffffffe that holds them.
fn expected_block(heap: Global) -> Result<Vec<u8>, AllocError> {
    let mut block = vec![in heap; 0xff, 0xff, 0xff, 0xfe, 0, 0, 0, 1, 9, 0, 0, 0]?;
    for encoded in &ENCODED {
        block.extend_from_slice(&encoded.1)?;
    }
    block.resize(510, 0)?;
    block.extend_from_slice(&[0x32, 0x8d])?;
    Ok(block)
}

#[test]
fn every_byte_is_as_laid_out(rt: HostRuntime) -> Result<(), Fail> {
    let heap = rt.alloc();
    let code = all_instructions(heap)?;
    let mut block = [MARK; 512];
    assert_eq!(rt; image::write(0xfffffffe, code.as_slice(), &mut block)?, 1);
    let expected = expected_block(heap)?;
    assert!(rt; block.as_slice() == expected.as_slice());
    let mut store = [UNTOUCHED; 9];
    assert_eq!(rt; image::read(&block, &mut store)?, 9);
    assert!(rt; store.as_slice() == code.as_slice());
    Ok(())
}
