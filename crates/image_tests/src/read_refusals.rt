use crate::samples::*;
use fixtures::UNTOUCHED;
use std::process::Abort;
use std::test::Fail;

// A block, one of its bytes and what is put there, and the place that the refusal then names.
#[derive(Clone, Copy)]
struct Damage(u16, u16, u8, usize);

// The numbers are those of the card, which the tests look at.
// Without a new check: 20.
static UNSEALED: [Damage; 10] = [
    Damage(0, 0, 1, 0),
    Damage(0, 8, 61, 0),
    Damage(0, 12, 17, 0),
    Damage(1, 19, 255, 1),
    Damage(1, 509, 1, 1),
    Damage(2, 9, 1, 2),
    Damage(2, 20, 1, 2),
    Damage(2, 508, 1, 2),
    Damage(0, 510, 0, 0),
    Damage(2, 511, 0, 2),
];

// With a new check, in a header: 21. Block 0 has the image number that the others must have.
static HEADERS: [Damage; 20] = [
    Damage(0, 0, 1, 1),
    Damage(0, 3, 6, 1),
    Damage(1, 0, 1, 1),
    Damage(1, 1, 1, 1),
    Damage(1, 2, 1, 1),
    Damage(2, 3, 6, 2),
    Damage(0, 4, 1, 0),
    Damage(0, 5, 1, 0),
    Damage(2, 5, 1, 2),
    Damage(0, 6, 1, 0),
    Damage(0, 7, 2, 0),
    Damage(2, 7, 4, 2),
    Damage(0, 8, 0, 0),
    Damage(1, 8, 61, 1),
    Damage(1, 8, 63, 1),
    Damage(2, 8, 0, 2),
    Damage(2, 8, 63, 2),
    Damage(0, 9, 1, 0),
    Damage(1, 10, 1, 1),
    Damage(2, 11, 128, 2),
];

// With a new check, below the header: 22. Block 2 holds one instruction, in its bytes 12 to 19.
static BODIES: [Damage; 9] = [
    Damage(0, 12, 17, 0),
    Damage(0, 508, 1, 0),
    Damage(0, 509, 1, 0),
    Damage(1, 501, 8, 1),
    Damage(2, 13, 8, 2),
    Damage(2, 20, 1, 2),
    Damage(2, 507, 1, 2),
    Damage(2, 508, 1, 2),
    Damage(2, 509, 1, 2),
];

static LATE: [Damage; 2] = [Damage(793, 12, 17, 793), Damage(793, 509, 1, 793)];

fn strike(image: &mut [u8], damage: &Damage) -> Result<(), Fail> {
    let Damage(block, at, value, _) = *damage;
    put(image, 512 * usize::from(block) + usize::from(at), value)
}

// That each damage is refused with this number. For 20 the old check stays; else the block gets a new one.
fn check_damaged(
    rt: &(impl Abort + AllocGlobal),
    image: &[u8],
    table: &[Damage],
    number: u8,
) -> Result<(), Fail> {
    for damage in table {
        let mut struck = image.to_vec(rt.alloc())?;
        strike(struck.as_mut_slice(), damage)?;
        if number != 20 {
            reseal(struck.as_mut_slice(), damage.0)?;
        }
        check_refused(rt, struck.as_slice(), 125, (number, damage.3))?;
    }
    Ok(())
}

#[test]
fn damaged_blocks_are_refused(rt: HostRuntime) -> Result<(), Fail> {
    let heap = rt.alloc();
    let image = sample_image(heap, 125, 1536)?;
    check_damaged(&rt, image.as_slice(), &UNSEALED, 20)?;
    check_damaged(&rt, image.as_slice(), &HEADERS, 21)?;
    check_damaged(&rt, image.as_slice(), &BODIES, 22)?;
    let longest = sample_image(heap, 49228, 406528)?;
    check_damaged(&rt, longest.as_slice(), &LATE, 20)?;
    check_damaged(&rt, longest.as_slice(), &LATE, 22)
}

// The first faulty block counts, and in it the check, then the header, then the instructions.
#[test]
fn the_first_fault_counts(rt: HostRuntime) -> Result<(), Fail> {
    let heap = rt.alloc();
    let mut image = sample_image(heap, 125, 1536)?;
    strike(image.as_mut_slice(), &Damage(1, 12, 17, 1))?;
    strike(image.as_mut_slice(), &Damage(2, 20, 1, 2))?;
    check_refused(&rt, image.as_slice(), 125, (20, 1))?;
    reseal(image.as_mut_slice(), 1)?;
    check_refused(&rt, image.as_slice(), 125, (22, 1))?;
    strike(image.as_mut_slice(), &Damage(1, 9, 1, 1))?;
    reseal(image.as_mut_slice(), 1)?;
    check_refused(&rt, image.as_slice(), 125, (21, 1))?;
    check_refused(&rt, image.as_slice(), 0, (21, 1))
}

#[test]
fn other_lengths_are_refused(rt: HostRuntime) -> Result<(), Fail> {
    let heap = rt.alloc();
    for size in [0, 511, 513, 407040] {
        let bytes = vec![in heap; 0; size]?;
        check_refused(&rt, bytes.as_slice(), 125, (19, 0))?;
    }
    Ok(())
}

#[test]
fn a_short_code_store_is_refused(rt: HostRuntime) -> Result<(), Fail> {
    let heap = rt.alloc();
    let image = sample_image(heap, 125, 1536)?;
    check_refused(&rt, image.as_slice(), 0, (18, 0))?;
    check_refused(&rt, image.as_slice(), 124, (18, 0))?;
    let mut store = vec![in heap; UNTOUCHED; 125]?;
    assert_eq!(rt; image::read(image.as_slice(), store.as_mut_slice())?, 125);
    Ok(())
}
