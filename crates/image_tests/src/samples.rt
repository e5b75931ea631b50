use crc::crc16;
use fixtures::{Row, UNTOUCHED, are_all, refused};
use machine::instruction::Instruction;
use std::alloc::{AllocError, Global};
use std::process::Abort;
use std::test::Fail;

// What a store of bytes holds before a call.
pub(crate) const MARK: u8 = 0xa5;

// So many instructions of the form, no two the same.
pub(crate) fn sample_code(heap: Global, count: u16) -> Result<Vec<Instruction>, AllocError> {
    (0..count).map(sample_instruction).collect(heap)
}

fn sample_instruction(k: u16) -> Instruction {
    // Both casts are proved to fit: `try_from` would add a failure that never comes.
    let register = (k % 8) as u8;
    Instruction::from(Row((7 + k % 3) as u8, register, register, 0, i32::from(k)))
}

// The image of so many instructions, which takes `size` bytes.
pub(crate) fn sample_image(heap: Global, count: u16, size: usize) -> Result<Vec<u8>, Fail> {
    let code = sample_code(heap, count)?;
    let mut store = vec![in heap; MARK; size]?;
    let _blocks = image::write(7, code.as_slice(), store.as_mut_slice())?;
    Ok(store)
}

// That reading into so many places is refused, and leaves the places as they were.
// The numbers of refusals are those of the card, which the tests look at.
pub(crate) fn check_refused(
    rt: &(impl Abort + AllocGlobal),
    image: &[u8],
    room: usize,
    expected: (u8, usize),
) -> Result<(), Fail> {
    let mut store = vec![in rt.alloc(); UNTOUCHED; room]?;
    let reply = image::read(image, store.as_mut_slice());
    assert_eq!(rt; refused(reply), Some(expected));
    assert!(rt; are_all(&UNTOUCHED, store.as_slice()));
    Ok(())
}

pub(crate) fn put(bytes: &mut [u8], at: usize, value: u8) -> Result<(), Fail> {
    if at >= bytes.len() {
        return Err(Fail::new("no such byte"));
    }
    bytes[at] = value;
    Ok(())
}

// Sets the last two bytes of a block to its check.
pub(crate) fn reseal(image: &mut [u8], block: u16) -> Result<(), Fail> {
    let start = 512 * usize::from(block);
    if image.len() < start + 512 {
        return Err(Fail::new("no such block"));
    }
    let check = crc16(&image[start..start + 510]).to_be_bytes();
    image[start + 510] = check[0];
    image[start + 511] = check[1];
    Ok(())
}
