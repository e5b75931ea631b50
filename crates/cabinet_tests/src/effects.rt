use crate::samples::*;
use fixtures::Row;
use machine::instruction::Instruction;
use machine::{Ran, Stop};
use port::Live;
use std::process::Abort;
use std::test::Fail;

const STEP: Ran = Ran {
    stop: Stop::Spent,
    steps: 1,
};

// An instruction, and a register or a cell with what it then holds.
#[derive(Clone, Copy)]
struct Effect(Row, u8, i32);

// With a register; register 7 is 2 unless it is that.
static EFFECTS: [Effect; 64] = [
    // ADD
    Effect(Row(3, 0, 1, 2, 0), 0, 7),
    Effect(Row(3, 0, 4, 1, 0), 0, -2147483639),
    Effect(Row(3, 0, 5, 6, 0), 0, i32::MAX),
    Effect(Row(3, 0, 7, 7, 0), 0, 4),
    Effect(Row(3, 7, 1, 2, 0), 7, 7),
    // SUB
    Effect(Row(4, 0, 1, 2, 0), 0, 13),
    Effect(Row(4, 0, 5, 3, 0), 0, 2147483641),
    Effect(Row(4, 1, 1, 1, 0), 1, 0),
    Effect(Row(4, 7, 1, 7, 0), 7, 8),
    // MUL
    Effect(Row(5, 0, 1, 2, 0), 0, -30),
    Effect(Row(5, 0, 4, 3, 0), 0, 2147483641),
    Effect(Row(5, 0, 4, 4, 0), 0, 1),
    Effect(Row(5, 0, 5, 6, 0), 0, i32::MIN),
    Effect(Row(5, 7, 7, 7, 0), 7, 4),
    // DIV
    Effect(Row(6, 0, 1, 2, 0), 0, -3),
    Effect(Row(6, 0, 2, 3, 0), 0, 0),
    Effect(Row(6, 0, 2, 7, 0), 0, -1),
    Effect(Row(6, 0, 5, 6, 0), 0, i32::MIN),
    Effect(Row(6, 0, 4, 6, 0), 0, -2147483647),
    Effect(Row(6, 0, 5, 5, 0), 0, 1),
    Effect(Row(6, 0, 4, 5, 0), 0, 0),
    Effect(Row(6, 0, 5, 4, 0), 0, -1),
    Effect(Row(6, 0, 5, 3, 0), 0, -306783378),
    Effect(Row(6, 7, 1, 7, 0), 7, 5),
    // LD
    Effect(Row(7, 0, 0, 0, 0), 0, 100),
    Effect(Row(7, 0, 0, 0, 15), 0, 115),
    Effect(Row(7, 0, 1, 0, 3), 0, 113),
    Effect(Row(7, 0, 1, 0, 5), 0, 115),
    Effect(Row(7, 0, 1, 0, -10), 0, 100),
    Effect(Row(7, 0, 5, 0, i32::MIN), 0, 100),
    Effect(Row(7, 0, 7, 0, 0), 0, 102),
    Effect(Row(7, 7, 0, 0, 5), 7, 105),
    // LDA
    Effect(Row(9, 0, 2, 0, 5), 0, 2),
    Effect(Row(9, 0, 4, 0, 1), 0, i32::MIN),
    Effect(Row(9, 0, 7, 0, 0), 0, 2),
    Effect(Row(9, 7, 7, 0, -4), 7, -2),
    // LDC
    Effect(Row(10, 0, 0, 0, -77), 0, -77),
    Effect(Row(10, 6, 0, 0, i32::MIN), 6, i32::MIN),
    Effect(Row(10, 7, 0, 0, 3), 7, 3),
    // JLT
    Effect(Row(11, 2, 1, 0, 5), 7, 15),
    Effect(Row(11, 5, 0, 0, 9), 7, 9),
    Effect(Row(11, 0, 1, 0, 5), 7, 2),
    Effect(Row(11, 1, 1, 0, 5), 7, 2),
    // JLE
    Effect(Row(12, 2, 0, 0, 9), 7, 9),
    Effect(Row(12, 0, 0, 0, 9), 7, 9),
    Effect(Row(12, 1, 0, 0, 9), 7, 2),
    // JGT
    Effect(Row(13, 1, 0, 0, 9), 7, 9),
    Effect(Row(13, 4, 0, 0, 9), 7, 9),
    Effect(Row(13, 0, 0, 0, 9), 7, 2),
    Effect(Row(13, 2, 0, 0, 9), 7, 2),
    // JGE
    Effect(Row(14, 1, 0, 0, 9), 7, 9),
    Effect(Row(14, 0, 0, 0, 9), 7, 9),
    Effect(Row(14, 2, 0, 0, 9), 7, 2),
    Effect(Row(14, 5, 0, 0, 9), 7, 2),
    // JEQ
    Effect(Row(15, 0, 7, 0, -4), 7, -2),
    Effect(Row(15, 1, 0, 0, 9), 7, 2),
    Effect(Row(15, 6, 0, 0, 9), 7, 2),
    Effect(Row(15, 7, 0, 0, 9), 7, 2),
    // JNE
    Effect(Row(16, 1, 0, 0, 9), 7, 9),
    Effect(Row(16, 2, 0, 0, 9), 7, 9),
    Effect(Row(16, 6, 4, 0, 1), 7, i32::MIN),
    Effect(Row(16, 7, 3, 0, 0), 7, 7),
    Effect(Row(16, 0, 0, 0, 9), 7, 2),
    Effect(Row(16, 0, 7, 0, 0), 7, 2),
];

// With a cell.
static STORED: [Effect; 6] = [
    Effect(Row(8, 1, 0, 0, 0), 0, 10),
    Effect(Row(8, 2, 0, 0, 15), 15, -3),
    Effect(Row(8, 5, 1, 0, 3), 13, i32::MIN),
    Effect(Row(8, 4, 1, 0, -10), 0, i32::MAX),
    Effect(Row(8, 0, 7, 0, 0), 2, 0),
    Effect(Row(8, 7, 6, 0, 1), 0, 2),
];

fn after(register: u8, value: i32) -> Result<[i32; 8], Fail> {
    let mut after = BEFORE;
    after[7] = 2;
    if register > 7 {
        return Err(Fail::new("no such register"));
    }
    after[usize::from(register)] = value;
    Ok(after)
}

// What a step of an instruction at place 1 tells, and the registers and the cells after it.
fn stepped(row: Row, port: &mut Live) -> (Ran, [i32; 8], [i32; 16]) {
    let code = [Instruction::from(row); 4];
    let mut registers = BEFORE;
    let mut cells = NUMBERED;
    let ran = machine::run(&code, &mut registers, &mut cells, port, 1);
    (ran, registers, cells)
}

fn check_effect(rt: &impl Abort, effect: &Effect) -> Result<(), Fail> {
    let (ran, registers, cells) = stepped(effect.0, &mut Live::new());
    assert_eq!(rt; ran, STEP);
    assert_eq!(rt; registers, after(effect.1, effect.2)?);
    assert_eq!(rt; cells, NUMBERED);
    Ok(())
}

// Here and in stores_change_one_cell a table goes through a check of its own: a loop over tables and checks would be no plainer.
#[test]
fn instructions_have_their_effects(rt: HostRuntime) -> Result<(), Fail> {
    for effect in &EFFECTS {
        check_effect(&rt, effect)?;
    }
    Ok(())
}

fn check_stored(rt: &impl Abort, stored: &Effect) -> Result<(), Fail> {
    let (ran, registers, cells) = stepped(stored.0, &mut Live::new());
    assert_eq!(rt; ran, STEP);
    assert_eq!(rt; registers, after(7, 2)?);
    let mut expected = NUMBERED;
    assert!(rt; stored.1 < 16);
    expected[usize::from(stored.1)] = stored.2;
    assert_eq!(rt; cells, expected);
    Ok(())
}

#[test]
fn stores_change_one_cell(rt: HostRuntime) -> Result<(), Fail> {
    for stored in &STORED {
        check_stored(&rt, stored)?;
    }
    Ok(())
}

// A reading of 42 into a register.
fn check_taking(rt: &impl Abort, register: u8) -> Result<(), Fail> {
    let mut port = Live::new();
    assert!(rt; port.give(42));
    let (ran, registers, cells) = stepped(Row(1, register, 0, 0, 0), &mut port);
    assert_eq!(rt; ran, STEP);
    assert_eq!(rt; registers, after(register, 42)?);
    assert_eq!(rt; cells, NUMBERED);
    assert!(rt; port.give(43));
    Ok(())
}

#[test]
fn a_reading_goes_into_a_register(rt: HostRuntime) -> Result<(), Fail> {
    check_taking(&rt, 0)?;
    check_taking(&rt, 6)?;
    check_taking(&rt, 7)
}

fn check_putting(rt: &impl Abort, register: u8, value: i32) -> Result<(), Fail> {
    let mut port = Live::new();
    let (ran, registers, cells) = stepped(Row(2, register, 0, 0, 0), &mut port);
    assert_eq!(rt; ran, STEP);
    assert_eq!(rt; registers, after(7, 2)?);
    assert_eq!(rt; cells, NUMBERED);
    assert_eq!(rt; port.fetch(), Some(value));
    Ok(())
}

// Register 7 is put raised.
#[test]
fn a_register_is_put(rt: HostRuntime) -> Result<(), Fail> {
    check_putting(&rt, 0, 0)?;
    check_putting(&rt, 5, i32::MIN)?;
    check_putting(&rt, 7, 2)
}
