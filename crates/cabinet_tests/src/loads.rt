use crate::samples::*;
use fixtures::{Row, UNTOUCHED, are_all, refused};
use machine::instruction::Instruction;
use std::alloc::{AllocError, Global};
use std::process::Abort;
use std::test::Fail;

static ROWS: [Row; 3] = [
    Row(10, 0, 0, 0, 1000),
    Row(2, 0, 0, 0, 0),
    Row(0, 0, 0, 0, 0),
];

// The slots of the code store, the cells of the memory, and what is told.
// The numbers are those of the card, which the tests look at.
#[derive(Clone, Copy)]
struct Case(usize, usize, (u8, usize));

// That a load is refused, and leaves both stores alone.
fn check_refused(rt: &(impl Abort + AllocGlobal), image: &[u8], case: Case) -> Result<(), Fail> {
    let Case(slots, cells, expected) = case;
    let mut code = vec![in rt.alloc(); UNTOUCHED; slots]?;
    let mut memory = vec![in rt.alloc(); MARK; cells]?;
    let reply = load(image, code.as_mut_slice(), memory.as_mut_slice());
    assert_eq!(rt; refused(reply), Some(expected));
    assert!(rt; are_all(&UNTOUCHED, code.as_slice()));
    assert!(rt; are_all(&MARK, memory.as_slice()));
    Ok(())
}

fn check_code(
    rt: &(impl Abort + AllocGlobal),
    code: &[Instruction],
    slots: usize,
) -> Result<(), Fail> {
    let expected = code_of(rt.alloc(), &ROWS)?;
    let front = code.get(0..3).ok_or("no front")?;
    let rest = code.get(3..slots).ok_or("no rest")?;
    assert!(rt; front == expected.as_slice());
    assert!(rt; are_all(&UNTOUCHED, rest));
    Ok(())
}

// That a load is granted: the rest of the code store is left, and the memory is at the start.
fn check_granted(
    rt: &(impl Abort + AllocGlobal),
    slots: usize,
    cells: usize,
    last: i32,
) -> Result<(), Fail> {
    let image = image_of(rt, &ROWS)?;
    let mut code = vec![in rt.alloc(); UNTOUCHED; slots]?;
    let mut memory = vec![in rt.alloc(); MARK; cells]?;
    let reply = load(image.as_slice(), code.as_mut_slice(), memory.as_mut_slice());
    assert_eq!(rt; reply?, 3);
    check_code(rt, code.as_slice(), slots)?;
    assert_eq!(rt; memory.as_slice().first().copied(), Some(last));
    let others = memory.as_slice().get(1..cells).ok_or("no others")?;
    assert!(rt; are_all(&0, others));
    Ok(())
}

#[test]
fn a_load_sets_the_start(rt: HostRuntime) -> Result<(), Fail> {
    check_granted(&rt, 3, 16, 15)?;
    check_granted(&rt, 4, 17, 16)?;
    check_granted(&rt, 62, 16383, 16382)?;
    check_granted(&rt, 3, 16384, 16383)
}

// 19 comes before all others.
#[test]
fn other_lengths_are_refused(rt: HostRuntime) -> Result<(), Fail> {
    let heap = rt.alloc();
    for size in [0, 1, 511, 513, 1023, 407040] {
        let image = vec![in heap; 0; size]?;
        check_refused(&rt, image.as_slice(), Case(3, 16, (19, 0)))?;
        check_refused(&rt, image.as_slice(), Case(0, 15, (19, 0)))?;
    }
    Ok(())
}

// 25 comes before what is wrong with a block, and before 18.
#[test]
fn other_memories_are_refused(rt: HostRuntime) -> Result<(), Fail> {
    let image = image_of(&rt, &ROWS)?;
    for cells in [0, 1, 15, 16385, 20000] {
        check_refused(&rt, image.as_slice(), Case(3, cells, (25, 0)))?;
        check_refused(&rt, image.as_slice(), Case(0, cells, (25, 0)))?;
        check_refused(&rt, &[0; 512], Case(3, cells, (25, 0)))?;
    }
    Ok(())
}

#[test]
fn short_code_stores_are_refused(rt: HostRuntime) -> Result<(), Fail> {
    let image = image_of(&rt, &ROWS)?;
    for slots in [0, 1, 2] {
        check_refused(&rt, image.as_slice(), Case(slots, 16, (18, 0)))?;
    }
    Ok(())
}

// An image of 63 instructions, in two blocks.
fn two_blocks(rt: &(impl Abort + AllocGlobal), number: u32) -> Result<Vec<u8>, Fail> {
    let code = vec![in rt.alloc(); Instruction::from(Row(0, 0, 0, 0, 0)); 63]?;
    let mut image = vec![in rt.alloc(); 0; 1024]?;
    assert_eq!(rt;
        image::write(number, code.as_slice(), image.as_mut_slice())?,
        2
    );
    Ok(image)
}

fn joined(heap: Global, first: &[u8], second: &[u8]) -> Result<Vec<u8>, AllocError> {
    let mut image = first.to_vec(heap)?;
    image.extend_from_slice(second)?;
    Ok(image)
}

fn block(image: &[u8], at: usize) -> Result<&[u8], Fail> {
    Ok(image.chunks_exact(512).nth(at).ok_or("no such block")?)
}

#[test]
fn a_changed_block_is_refused(rt: HostRuntime) -> Result<(), Fail> {
    let heap = rt.alloc();
    check_refused(&rt, &[0; 512], Case(3, 16, (20, 0)))?;
    let image = two_blocks(&rt, 7)?;
    let front = block(image.as_slice(), 0)?;
    let struck = joined(heap, front, &[1; 512])?;
    check_refused(&rt, struck.as_slice(), Case(63, 16, (20, 1)))?;
    check_refused(&rt, struck.as_slice(), Case(0, 16, (20, 1)))
}

// One block of two; the two exchanged; the second of another image.
#[test]
fn blocks_that_do_not_belong_are_refused(rt: HostRuntime) -> Result<(), Fail> {
    let heap = rt.alloc();
    let image = two_blocks(&rt, 7)?;
    let other = two_blocks(&rt, 8)?;
    let first = block(image.as_slice(), 0)?;
    let second = block(image.as_slice(), 1)?;
    check_refused(&rt, first, Case(63, 16, (21, 0)))?;
    let exchanged = joined(heap, second, first)?;
    check_refused(&rt, exchanged.as_slice(), Case(63, 16, (21, 0)))?;
    let mixed = joined(heap, first, block(other.as_slice(), 1)?)?;
    check_refused(&rt, mixed.as_slice(), Case(63, 16, (21, 1)))?;
    check_refused(&rt, mixed.as_slice(), Case(0, 16, (21, 1)))
}

// A block of image 7 with the one instruction 17 0 0 0 0, which is not of the form, and its right check.
#[test]
fn an_instruction_without_the_form_is_refused(rt: HostRuntime) -> Result<(), Fail> {
    let mut image = [0; 512];
    image[3] = 7;
    image[7] = 1;
    image[8] = 1;
    image[12] = 17;
    image[510] = 0x33;
    image[511] = 0x29;
    check_refused(&rt, &image, Case(1, 16, (22, 0)))?;
    check_refused(&rt, &image, Case(0, 16, (22, 0)))
}
