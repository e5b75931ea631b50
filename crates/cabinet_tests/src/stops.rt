use crate::samples::*;
use fixtures::Row;
use machine::Stop;
use machine::instruction::Instruction;
use port::{Live, Port};
use std::process::Abort;

// Instructions at place 1.
static HALTING: [Halting; 41] = [
    Halting(Row(0, 0, 0, 0, 0), Stop::Halt(0)),
    Halting(Row(0, 1, 0, 0, 0), Stop::Halt(1)),
    Halting(Row(0, 2, 0, 0, 0), Stop::Halt(2)),
    Halting(Row(0, 3, 0, 0, 0), Stop::Halt(3)),
    Halting(Row(0, 4, 0, 0, 0), Stop::Halt(4)),
    Halting(Row(0, 5, 0, 0, 0), Stop::Halt(5)),
    Halting(Row(0, 6, 0, 0, 0), Stop::Halt(6)),
    Halting(Row(0, 7, 0, 0, 0), Stop::Halt(7)),
    // no reading waits
    Halting(Row(1, 0, 0, 0, 0), Stop::Waiting),
    Halting(Row(1, 7, 0, 0, 0), Stop::Waiting),
    // the port is blocked; register 7 is raised already
    Halting(Row(2, 1, 0, 0, 0), Stop::Blocked(10)),
    Halting(Row(2, 5, 0, 0, 0), Stop::Blocked(i32::MIN)),
    Halting(Row(2, 7, 0, 0, 0), Stop::Blocked(2)),
    // by 0
    Halting(Row(6, 1, 1, 0, 0), Stop::Divisor),
    Halting(Row(6, 7, 5, 0, 0), Stop::Divisor),
    Halting(Row(6, 0, 0, 0, 0), Stop::Divisor),
    // just outside the 16 cells, and far from them
    Halting(Row(7, 1, 0, 0, -1), Stop::Address),
    Halting(Row(7, 1, 0, 0, 16), Stop::Address),
    Halting(Row(7, 1, 1, 0, 6), Stop::Address),
    Halting(Row(7, 1, 1, 0, -11), Stop::Address),
    Halting(Row(7, 7, 5, 0, 0), Stop::Address),
    Halting(Row(7, 1, 4, 0, i32::MAX), Stop::Address),
    Halting(Row(8, 1, 0, 0, -1), Stop::Address),
    Halting(Row(8, 1, 0, 0, 16), Stop::Address),
    Halting(Row(8, 1, 1, 0, 6), Stop::Address),
    Halting(Row(8, 7, 7, 0, -3), Stop::Address),
    Halting(Row(8, 1, 4, 0, 1), Stop::Address),
    // not of the form
    Halting(Row(17, 0, 0, 0, 0), Stop::Place),
    Halting(Row(255, 0, 0, 0, 0), Stop::Place),
    Halting(Row(0, 8, 0, 0, 0), Stop::Place),
    Halting(Row(3, 0, 8, 0, 0), Stop::Place),
    Halting(Row(3, 0, 0, 8, 0), Stop::Place),
    Halting(Row(0, 0, 1, 0, 0), Stop::Place),
    Halting(Row(2, 0, 1, 0, 0), Stop::Place),
    Halting(Row(10, 0, 1, 0, 0), Stop::Place),
    Halting(Row(1, 0, 0, 1, 0), Stop::Place),
    Halting(Row(7, 0, 0, 1, 0), Stop::Place),
    Halting(Row(16, 0, 0, 1, 0), Stop::Place),
    Halting(Row(0, 0, 0, 0, 1), Stop::Place),
    Halting(Row(6, 0, 0, 1, -1), Stop::Place),
    Halting(Row(99, 98, 97, 96, -95), Stop::Place),
];

// What an installer is told. The numbers are those of the card, which the tests look at.
#[derive(Clone, Copy)]
struct Number(Stop, u8);

static NUMBERS: [Number; 14] = [
    Number(Stop::Halt(0), 0),
    Number(Stop::Halt(1), 1),
    Number(Stop::Halt(2), 2),
    Number(Stop::Halt(3), 3),
    Number(Stop::Halt(4), 4),
    Number(Stop::Halt(5), 5),
    Number(Stop::Halt(6), 6),
    Number(Stop::Halt(7), 7),
    Number(Stop::Divisor, 8),
    Number(Stop::Address, 9),
    Number(Stop::Place, 10),
    Number(Stop::Waiting, 20),
    Number(Stop::Blocked(-5), 21),
    Number(Stop::Spent, 22),
];

#[test]
fn each_stop_has_its_number(rt: HostRuntime) {
    for number in &NUMBERS {
        assert_eq!(rt; number.0.reason(), number.1);
    }
}

// A port with no reading, and a set point that nobody fetches.
fn shut_port() -> Live {
    let mut port = Live::new();
    let _ = port.put(55);
    port
}

// The code stops at once, whatever the grant, and leaves all as it was.
fn check_stop(rt: &impl Abort, code: &[Instruction], before: [i32; 8], stop: Stop) {
    let mut registers = before;
    let mut cells = NUMBERED;
    let mut port = shut_port();
    for grant in [1, 2, 1_000_000] {
        let ran = machine::run(code, &mut registers, &mut cells, &mut port, grant);
        assert_eq!(rt; ran, told(stop, 0));
    }
    assert_eq!(rt; registers, before);
    assert_eq!(rt; cells, NUMBERED);
    assert_eq!(rt; port.fetch(), Some(55));
    assert!(rt; port.take().is_none());
}

#[test]
fn an_instruction_that_stops_has_no_effect(rt: HostRuntime) {
    for halting in &HALTING {
        check_stop(&rt, &[Instruction::from(halting.0); 4], BEFORE, halting.1);
    }
}

// Register 7 outside of four instructions, and any place without one.
#[test]
fn a_place_outside_the_code_stops(rt: HostRuntime) {
    let code = [Instruction::from(Row(3, 0, 1, 2, 0)); 4];
    for place in [-1, 4, 5, i32::MIN, i32::MAX] {
        let mut before = BEFORE;
        before[7] = place;
        check_stop(&rt, &code, before, Stop::Place);
    }
    check_stop(&rt, &[], BEFORE, Stop::Place);
    check_stop(&rt, &[], [0; 8], Stop::Place);
}

// A jump behind the code is a step, and the stop comes after it.
#[test]
fn a_jump_out_of_the_code_is_a_step(rt: HostRuntime) {
    let code = [Instruction::from(Row(10, 7, 0, 0, -5))];
    let mut registers = [0; 8];
    let mut cells = NUMBERED;
    let mut port = Live::new();
    let ran = machine::run(&code, &mut registers, &mut cells, &mut port, 9);
    assert_eq!(rt; ran, told(Stop::Place, 1));
    assert_eq!(rt; registers, [0, 0, 0, 0, 0, 0, 0, -5]);
}

// With one cell there is address 0 alone, and with none there is no address.
#[test]
fn the_cells_have_their_addresses(rt: HostRuntime) {
    let code = [
        Instruction::from(Row(7, 0, 0, 0, 0)),
        Instruction::from(Row(7, 0, 1, 0, 1)),
    ];
    let mut registers = [0; 8];
    let mut port = Live::new();
    let ran = machine::run(&code, &mut registers, &mut [7], &mut port, 9);
    assert_eq!(rt; ran, told(Stop::Address, 1));
    assert_eq!(rt; registers, [7, 0, 0, 0, 0, 0, 0, 1]);
    check_stop_without_cells(&rt);
}

fn check_stop_without_cells(rt: &impl Abort) {
    let code = [Instruction::from(Row(7, 0, 0, 0, 0))];
    let mut registers = [0; 8];
    let mut port = Live::new();
    let ran = machine::run(&code, &mut registers, &mut [], &mut port, 9);
    assert_eq!(rt; ran, told(Stop::Address, 0));
}
