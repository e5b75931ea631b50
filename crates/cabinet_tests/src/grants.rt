use crate::samples::*;
use fixtures::Row;
use machine::instruction::Instruction;
use machine::{Ran, Stop};
use port::Record;
use std::process::Abort;
use std::test::Fail;

// Counts 3 down to 0, puts that and stops: nine steps.
static COUNTDOWN: [Row; 6] = [
    Row(10, 0, 0, 0, 3),
    Row(10, 1, 0, 0, 1),
    Row(4, 0, 0, 1, 0),
    Row(16, 0, 2, 0, 2),
    Row(2, 0, 0, 0, 0),
    Row(0, 3, 0, 0, 0),
];

// Goes back to itself for ever.
static CIRCLE: [Row; 1] = [Row(15, 0, 0, 0, 0)];

// What runs leave: the registers and the log, how many numbers were put, and what the last run told.
#[derive(Clone, Copy)]
struct Left {
    registers: [i32; 8],
    log: [i32; 2],
    written: usize,
    ran: Ran,
}

// The runs of these grants, one after the other, over one record port with no reading.
fn run_all(code: &[Instruction], grants: &[u32]) -> Left {
    let mut registers = [0; 8];
    let mut cells = [0; 16];
    let mut log = [MARK; 2];
    let mut port = Record::new(&[], &mut log);
    let mut ran = told(Stop::Spent, 0);
    for grant in grants {
        ran = machine::run(code, &mut registers, &mut cells, &mut port, *grant);
    }
    let written = port.written();
    Left {
        registers,
        log,
        written,
        ran,
    }
}

#[test]
fn the_grant_is_spent_exactly(rt: HostRuntime) -> Result<(), Fail> {
    let code = code_of(rt.alloc(), &COUNTDOWN)?;
    let code = code.as_slice();
    assert_eq!(rt; run_all(code, &[1]).ran, told(Stop::Spent, 1));
    assert_eq!(rt; run_all(code, &[8]).ran, told(Stop::Spent, 8));
    assert_eq!(rt; run_all(code, &[9]).ran, told(Stop::Spent, 9));
    assert_eq!(rt; run_all(code, &[9, 1]).ran, told(Stop::Halt(3), 0));
    assert_eq!(rt; run_all(code, &[9, 5]).ran, told(Stop::Halt(3), 0));
    assert_eq!(rt; run_all(code, &[8, 2]).ran, told(Stop::Halt(3), 1));
    assert_eq!(rt; run_all(code, &[10]).ran, told(Stop::Halt(3), 9));
    assert_eq!(rt; run_all(code, &[1_000_000]).ran, told(Stop::Halt(3), 9));
    Ok(())
}

fn check_nine(rt: &impl Abort, left: Left) {
    assert_eq!(rt; left.registers, [0, 1, 0, 0, 0, 0, 0, 5]);
    assert_eq!(rt; left.log, [0, MARK]);
    assert_eq!(rt; left.written, 1);
}

#[test]
fn grants_add_up(rt: HostRuntime) -> Result<(), Fail> {
    let code = code_of(rt.alloc(), &COUNTDOWN)?;
    let code = code.as_slice();
    check_nine(&rt, run_all(code, &[9]));
    check_nine(&rt, run_all(code, &[8, 1]));
    check_nine(&rt, run_all(code, &[1, 2, 3, 3]));
    check_nine(&rt, run_all(code, &[1, 1, 1, 1, 1, 1, 1, 1, 1]));
    check_nine(&rt, run_all(code, &[4, 100, 100]));
    assert_eq!(rt; run_all(code, &[8]).written, 0);
    Ok(())
}

#[test]
fn a_circle_spends_every_grant(rt: HostRuntime) -> Result<(), Fail> {
    let code = code_of(rt.alloc(), &CIRCLE)?;
    let left = run_all(code.as_slice(), &[1_000_000]);
    assert_eq!(rt; left.ran, told(Stop::Spent, 1_000_000));
    assert_eq!(rt; left.registers, [0; 8]);
    Ok(())
}

// The second of two instructions.
static SECOND: [Halting; 6] = [
    Halting(Row(0, 6, 0, 0, 0), Stop::Halt(6)),
    Halting(Row(1, 0, 0, 0, 0), Stop::Waiting),
    Halting(Row(6, 0, 0, 1, 0), Stop::Divisor),
    Halting(Row(8, 0, 0, 0, 9), Stop::Address),
    Halting(Row(7, 0, 1, 0, -1), Stop::Address),
    Halting(Row(17, 0, 0, 0, 0), Stop::Place),
];

// After LDC 0,7(0) the grant is spent, and the next run tells the stop.
fn check_second(rt: &impl Abort, second: &Halting) {
    let code = [
        Instruction::from(Row(10, 0, 0, 0, 7)),
        Instruction::from(second.0),
    ];
    assert_eq!(rt; run_all(&code, &[1]).ran, told(Stop::Spent, 1));
    assert_eq!(rt; run_all(&code, &[1, 1]).ran, told(second.1, 0));
    assert_eq!(rt; run_all(&code, &[2]).ran, told(second.1, 1));
}

#[test]
fn a_stop_after_a_spent_grant_is_told_next(rt: HostRuntime) -> Result<(), Fail> {
    for second in &SECOND {
        check_second(&rt, second);
    }
    let alone = code_of(rt.alloc(), &[Row(10, 0, 0, 0, 7)])?;
    assert_eq!(rt; run_all(alone.as_slice(), &[1]).ran, told(Stop::Spent, 1));
    assert_eq!(rt;
        run_all(alone.as_slice(), &[1, 1]).ran,
        told(Stop::Place, 0)
    );
    Ok(())
}

// Two places in the log; the third put is blocked.
#[test]
fn a_full_log_blocks_after_a_spent_grant(rt: HostRuntime) {
    let code = [Instruction::from(Row(2, 7, 0, 0, 0)); 4];
    assert_eq!(rt; run_all(&code, &[2]).ran, told(Stop::Spent, 2));
    assert_eq!(rt; run_all(&code, &[2, 1]).ran, told(Stop::Blocked(3), 0));
    let left = run_all(&code, &[3]);
    assert_eq!(rt; left.ran, told(Stop::Blocked(3), 2));
    assert_eq!(rt; left.log, [1, 2]);
    assert_eq!(rt; left.registers, [0, 0, 0, 0, 0, 0, 0, 2]);
}
