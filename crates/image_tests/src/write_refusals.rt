use crate::samples::*;
use fixtures::{UNTOUCHED, are_all, refused};
use machine::instruction::Instruction;
use std::alloc::{AllocError, Global};
use std::test::Fail;

// Instructions, the indices of up to two malformed ones, the bytes of the store, and the refusal.
// The numbers are those of the card, which the tests look at.
#[derive(Clone, Copy)]
struct Case(u16, Option<u16>, Option<u16>, usize, u8, usize);

static CASES: [Case; 15] = [
    Case(0, None, None, 0, 23, 0),
    Case(0, None, None, 512, 23, 0),
    Case(49229, None, None, 407040, 23, 0),
    Case(49229, Some(0), None, 0, 23, 0),
    Case(1, Some(0), None, 0, 22, 0),
    Case(62, Some(61), None, 512, 22, 0),
    Case(63, Some(62), None, 1024, 22, 1),
    Case(200, Some(185), Some(186), 2048, 22, 2),
    Case(200, Some(199), Some(124), 2048, 22, 2),
    Case(49228, Some(49166), None, 406528, 22, 793),
    Case(49228, Some(49165), Some(49227), 406528, 22, 792),
    Case(1, None, None, 0, 24, 0),
    Case(62, None, None, 511, 24, 0),
    Case(63, None, None, 1023, 24, 0),
    Case(49228, None, None, 406527, 24, 0),
];

fn spoil(code: &mut [Instruction], index: Option<u16>) {
    if let Some(index) = index {
        let at = usize::from(index);
        if at < code.len() {
            code[at] = UNTOUCHED;
        }
    }
}

fn spoiled_code(heap: Global, case: &Case) -> Result<Vec<Instruction>, AllocError> {
    let Case(instructions, one, another, _, _, _) = *case;
    let mut code = sample_code(heap, instructions)?;
    spoil(code.as_mut_slice(), one);
    spoil(code.as_mut_slice(), another);
    Ok(code)
}

#[test]
fn code_and_store_are_refused(rt: HostRuntime) -> Result<(), Fail> {
    let heap = rt.alloc();
    for case in &CASES {
        let Case(_, _, _, bytes, number, place) = *case;
        let code = spoiled_code(heap, case)?;
        let mut store = vec![in heap; MARK; bytes]?;
        let reply = image::write(7, code.as_slice(), store.as_mut_slice());
        assert_eq!(rt; refused(reply), Some((number, place)));
        assert!(rt; are_all(&MARK, store.as_slice()));
    }
    Ok(())
}
