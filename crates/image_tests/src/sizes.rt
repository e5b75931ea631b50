use crate::samples::*;
use fixtures::{UNTOUCHED, are_all};
use image::header_at;
use machine::instruction::Instruction;
use std::process::Abort;
use std::test::Fail;

// Instructions, blocks, bytes, and the index and the count of the last block.
#[derive(Clone, Copy)]
struct Size(u16, u16, usize, u16, u8);

static SIZES: [Size; 4] = [
    Size(1, 1, 512, 0, 1),
    Size(62, 1, 512, 0, 62),
    Size(63, 2, 1024, 1, 1),
    Size(49228, 794, 406528, 793, 62),
];

fn check_last_header(rt: &impl Abort, image: &[u8], size: &Size) -> Result<(), Fail> {
    let Size(_, blocks, _, index, count) = *size;
    let last = header_at(image, usize::from(index)).ok_or("no last block")?;
    assert_eq!(rt; last.number, 0xfffffffe);
    assert_eq!(rt; last.index, index);
    assert_eq!(rt; last.blocks, blocks);
    assert_eq!(rt; last.count, count);
    assert!(rt; header_at(image, usize::from(blocks)).is_none());
    Ok(())
}

// Reads an image into a store with two places to spare.
fn check_reading(
    rt: &(impl Abort + AllocGlobal),
    image: &[u8],
    code: &[Instruction],
) -> Result<(), Fail> {
    let n = code.len();
    let room = n.checked_add(2).ok_or("too long")?;
    let mut store = vec![in rt.alloc(); UNTOUCHED; room]?;
    assert_eq!(rt; image::read(image, store.as_mut_slice())?, n);
    let front = store.as_slice().get(0..n).ok_or("no front")?;
    let rest = store.as_slice().get(n..).ok_or("no rest")?;
    assert!(rt; front == code);
    assert!(rt; rest.len() == 2 && are_all(&UNTOUCHED, rest));
    Ok(())
}

// Writes an image into a store with three bytes to spare, and reads it back.
fn check_size(rt: &(impl Abort + AllocGlobal), size: &Size) -> Result<(), Fail> {
    let Size(instructions, blocks, bytes, _, _) = *size;
    let room = bytes.checked_add(3).ok_or("too long")?;
    let code = sample_code(rt.alloc(), instructions)?;
    let mut store = vec![in rt.alloc(); MARK; room]?;
    let written = image::write(0xfffffffe, code.as_slice(), store.as_mut_slice())?;
    assert_eq!(rt; written, usize::from(blocks));
    let image = store.as_slice().get(0..bytes).ok_or("no image")?;
    let rest = store.as_slice().get(bytes..).ok_or("no rest")?;
    assert!(rt; rest.len() == 3 && are_all(&MARK, rest));
    assert_eq!(rt; image::block_count(image)?, usize::from(blocks));
    check_last_header(rt, image, size)?;
    check_reading(rt, image, code.as_slice())
}

// A table and a check of its own: a loop over tables and checks would be no plainer.
#[test]
fn each_size_is_read_back(rt: HostRuntime) -> Result<(), Fail> {
    for size in &SIZES {
        check_size(&rt, size)?;
    }
    Ok(())
}
