use crate::samples::*;
use fixtures::{Row, are_all, refused};
use machine::instruction::Instruction;
use std::alloc::Global;
use std::process::Abort;
use std::test::Fail;

// Each breaks one rule of the form.
static MALFORMED: [Row; 16] = [
    Row(17, 0, 0, 0, 0),
    Row(255, 0, 0, 0, 0),
    Row(0, 8, 0, 0, 0),
    Row(3, 0, 8, 0, 0),
    Row(3, 0, 0, 8, 0),
    Row(0, 0, 1, 0, 0),
    Row(1, 0, 1, 0, 0),
    Row(2, 0, 1, 0, 0),
    Row(10, 0, 1, 0, 0),
    Row(2, 0, 0, 1, 0),
    Row(7, 0, 0, 1, 0),
    Row(16, 0, 0, 1, 0),
    Row(0, 0, 0, 0, 1),
    Row(3, 0, 0, 0, 1),
    Row(6, 0, 0, 0, -1),
    Row(6, 0, 0, 0, i32::MIN),
];

// An image of one block whose instruction is put there byte by byte.
fn image_with(heap: Global, row: &Row) -> Result<Vec<u8>, Fail> {
    let Row(op, r, s, t, d) = *row;
    let [d0, d1, d2, d3] = d.to_be_bytes();
    let mut image = sample_image(heap, 1, 512)?;
    let first = image
        .as_mut_slice()
        .get_mut(12..20)
        .ok_or("no instruction")?;
    first.copy_from_slice(&[op, r, s, t, d0, d1, d2, d3]);
    reseal(image.as_mut_slice(), 0)?;
    Ok(image)
}

fn check_writing(rt: &impl Abort, instruction: Instruction) {
    let mut store = [MARK; 512];
    let reply = image::write(7, &[instruction], &mut store);
    assert_eq!(rt; refused(reply), Some((22, 0)));
    assert!(rt; are_all(&MARK, &store));
}

#[test]
fn malformed_instructions_are_refused(rt: HostRuntime) -> Result<(), Fail> {
    for row in &MALFORMED {
        check_writing(&rt, Instruction::from(*row));
        let image = image_with(rt.alloc(), row)?;
        check_refused(&rt, image.as_slice(), 1, (22, 0))?;
    }
    Ok(())
}
