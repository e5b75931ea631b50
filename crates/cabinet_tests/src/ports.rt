use crate::samples::*;
use fixtures::Row;
use machine::Stop;
use machine::instruction::Instruction;
use port::{Ceiling, Live, Port, Record};

#[test]
fn a_live_port_holds_one_reading_and_one_set_point(rt: HostRuntime) {
    let mut port = Live::new();
    assert_eq!(rt; port.take(), None);
    assert_eq!(rt; port.fetch(), None);
    assert!(rt; port.give(700));
    assert!(rt; !port.give(800));
    assert!(rt; port.put(-5));
    assert!(rt; !port.put(6));
    assert_eq!(rt; port.take(), Some(700));
    assert_eq!(rt; port.take(), None);
    assert!(rt; port.give(900));
    assert_eq!(rt; port.fetch(), Some(-5));
    assert_eq!(rt; port.fetch(), None);
    assert!(rt; port.put(6));
    assert_eq!(rt; port.take(), Some(900));
    assert_eq!(rt; port.fetch(), Some(6));
}

#[test]
fn a_record_port_reads_and_logs_in_order(rt: HostRuntime) {
    let mut log = [MARK; 3];
    let mut port = Record::new(&[5, i32::MIN], &mut log);
    assert_eq!(rt; port.take(), Some(5));
    assert!(rt; port.put(1));
    assert_eq!(rt; port.taken(), 1);
    assert_eq!(rt; port.written(), 1);
    assert_eq!(rt; port.take(), Some(i32::MIN));
    assert_eq!(rt; port.take(), None);
    assert!(rt; port.put(i32::MAX));
    assert_eq!(rt; port.taken(), 2);
    assert_eq!(rt; port.written(), 2);
    assert_eq!(rt; log, [1, i32::MAX, MARK]);
}

#[test]
fn a_full_log_blocks(rt: HostRuntime) {
    let mut log = [MARK; 2];
    let mut port = Record::new(&[7], &mut log);
    assert!(rt; port.put(1) && port.put(2));
    assert!(rt; !port.put(3));
    assert!(rt; !port.put(4));
    assert_eq!(rt; port.written(), 2);
    assert_eq!(rt; port.take(), Some(7));
    assert_eq!(rt; log, [1, 2]);
}

#[test]
fn an_empty_record_port_waits_and_blocks(rt: HostRuntime) {
    let mut port = Record::new(&[], &mut []);
    assert_eq!(rt; port.take(), None);
    assert!(rt; !port.put(1));
    assert_eq!(rt; port.taken(), 0);
    assert_eq!(rt; port.written(), 0);
}

// What is put, and what comes through between 0 and 1000.
static CLIPPED: [(i32, i32); 9] = [
    (0, 0),
    (1, 1),
    (700, 700),
    (1000, 1000),
    (1001, 1000),
    (1200, 1000),
    (i32::MAX, 1000),
    (-1, 0),
    (i32::MIN, 0),
];

// The set point that a charger finds below a ceiling with these bounds.
fn clipped(a: i32, b: i32, v: i32) -> Option<i32> {
    let mut port = Ceiling::new(Live::new(), a, b);
    if port.put(v) { port.port.fetch() } else { None }
}

#[test]
fn a_ceiling_clips(rt: HostRuntime) {
    for (put, came) in &CLIPPED {
        assert_eq!(rt; clipped(0, 1000, *put), Some(*came));
        assert_eq!(rt; clipped(1000, 0, *put), Some(*came));
        assert_eq!(rt; clipped(i32::MIN, i32::MAX, *put), Some(*put));
        assert_eq!(rt; clipped(i32::MAX, i32::MIN, *put), Some(*put));
        assert_eq!(rt; clipped(-8, -8, *put), Some(-8));
    }
}

#[test]
fn a_ceiling_takes_and_blocks_as_the_port_below(rt: HostRuntime) {
    let mut port = Ceiling::new(Live::new(), -10, 10);
    assert_eq!(rt; port.take(), None);
    assert!(rt; port.port.give(5000));
    assert!(rt; port.put(11));
    assert!(rt; !port.put(3));
    assert_eq!(rt; port.take(), Some(5000));
    assert_eq!(rt; port.port.fetch(), Some(10));
    assert!(rt; port.put(-11));
    assert_eq!(rt; port.port.fetch(), Some(-10));
}

#[test]
fn a_ceiling_over_a_log_writes_what_it_clipped(rt: HostRuntime) {
    let mut log = [MARK; 2];
    let mut port = Ceiling::new(Record::new(&[1200], &mut log), 0, 1000);
    assert_eq!(rt; port.take(), Some(1200));
    assert!(rt; port.put(1200) && port.put(-1200));
    assert!(rt; !port.put(500));
    assert_eq!(rt; port.port.written(), 2);
    assert_eq!(rt; log, [1000, 0]);
}

// The lower of two ceilings acts last.
#[test]
fn a_ceiling_stands_over_a_ceiling(rt: HostRuntime) {
    let mut port = Ceiling::new(Ceiling::new(Live::new(), 0, 10), 5, 20);
    assert!(rt; port.put(3));
    let below = &mut port.port;
    assert_eq!(rt; below.port.fetch(), Some(5));
    assert!(rt; port.put(30));
    let below = &mut port.port;
    assert_eq!(rt; below.port.fetch(), Some(10));
}

// What the machine tells of a blocked put is the number before it is clipped.
#[test]
fn a_blocked_number_is_told_whole(rt: HostRuntime) {
    let code = [
        Instruction::from(Row(10, 0, 0, 0, 1200)),
        Instruction::from(Row(2, 0, 0, 0, 0)),
        Instruction::from(Row(2, 0, 0, 0, 0)),
    ];
    let mut registers = [0; 8];
    let mut cells = [0; 16];
    let mut port = Ceiling::new(Live::new(), 0, 1000);
    let ran = machine::run(&code, &mut registers, &mut cells, &mut port, 9);
    assert_eq!(rt; ran, told(Stop::Blocked(1200), 2));
    assert_eq!(rt; port.port.fetch(), Some(1000));
    let again = machine::run(&code, &mut registers, &mut cells, &mut port, 9);
    assert_eq!(rt; again, told(Stop::Place, 1));
}
