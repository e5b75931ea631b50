use crate::samples::*;
use cabinet::{Empty, Loaded, Refused, Started};
use day::Done;
use fixtures::{Row, UNTOUCHED, card};
use machine::Stop;
use machine::instruction::Instruction;
use port::Live;
use std::process::Abort;
use std::test::Fail;

// A cabinet is loaded over ten slots and twenty cells of these stores.
const SLOTS: usize = 12;

const CELLS: usize = 24;

// Puts 5 into cell 3 and then to the port, and stops: three steps.
static ROWS: [Row; 4] = [
    Row(10, 0, 0, 0, 5),
    Row(8, 0, 1, 0, 3),
    Row(2, 0, 0, 0, 0),
    Row(0, 4, 0, 0, 0),
];

// The memory after a load, and after a run of ROWS.
const FRESH: [i32; CELLS] = [
    19, 0, 0, 0, 0, 0, 0, 0, 0, 0, 0, 0, 0, 0, 0, 0, 0, 0, 0, 0, MARK, MARK, MARK, MARK,
];

const USED: [i32; CELLS] = [
    19, 0, 0, 5, 0, 0, 0, 0, 0, 0, 0, 0, 0, 0, 0, 0, 0, 0, 0, 0, MARK, MARK, MARK, MARK,
];

// Not `day::Command`: of its commands only these two leave the cabinet loaded.
#[derive(Clone, Copy)]
enum Call {
    Run(u32),
    Restart,
}

// A call over fronts of so many slots and cells.
#[derive(Clone, Copy)]
struct Trial(Call, usize, usize);

// What a call told, with the number and the place of a refusal: the tests look at the numbers of the card.
type Told = Result<Done, (u8, usize)>;

// What the last call told, and the stores and the set point at the end.
#[derive(Clone, Copy)]
struct Seen {
    told: Option<Told>,
    code: [Instruction; SLOTS],
    memory: [i32; CELLS],
    setpoint: Option<i32>,
}

fn make_call(
    cabinet: &mut Loaded,
    call: Call,
    code: &[Instruction],
    memory: &mut [i32],
    port: &mut Live,
) -> Told {
    match call {
        Call::Run(grant) => cabinet
            .run(code, memory, port, grant)
            .map(Done::Ran)
            .map_err(card),
        Call::Restart => cabinet
            .restart(code, memory)
            .map(|()| Done::Restarted)
            .map_err(card),
    }
}

fn make_trial(
    cabinet: &mut Loaded,
    trial: &Trial,
    code: &[Instruction; SLOTS],
    memory: &mut [i32; CELLS],
    port: &mut Live,
) -> Told {
    let Trial(call, slots, cells) = *trial;
    let slots = slots.min(SLOTS);
    let cells = cells.min(CELLS);
    make_call(cabinet, call, &code[0..slots], &mut memory[0..cells], port)
}

// Loads an image, makes these calls in order, and ends the cabinet.
fn make_trials(image: &[u8], trials: &[Trial]) -> Seen {
    let mut code = [UNTOUCHED; SLOTS];
    let mut memory = [MARK; CELLS];
    let mut port = Live::new();
    let mut told = None;
    match Empty::new().load(image, &mut code[0..10], &mut memory[0..20]) {
        Ok(
            Started {
                mut cabinet,
                count: _,
            },
        ) => {
            for trial in trials {
                told = Some(make_trial(&mut cabinet, trial, &code, &mut memory, &mut port));
            }
            cabinet.unload().retire();
        }
        Err(Refused { refusal, cabinet }) => {
            told = Some(Err(card(refusal)));
            cabinet.retire();
        }
    }
    let setpoint = port.fetch();
    Seen {
        told,
        code,
        memory,
        setpoint,
    }
}

fn run(grant: u32) -> Trial {
    Trial(Call::Run(grant), 10, 20)
}

fn loaded_code() -> [Instruction; SLOTS] {
    let mut code = [UNTOUCHED; SLOTS];
    for (slot, row) in code.iter_mut().zip(&ROWS) {
        *slot = Instruction::from(*row);
    }
    code
}

// A run and the number with which it is refused. The numbers are those of the card, which the tests look at.
#[derive(Clone, Copy)]
struct Wrong(Trial, u8);

static WRONG: [Wrong; 12] = [
    Wrong(Trial(Call::Run(0), 10, 20), 26),
    Wrong(Trial(Call::Run(1_000_001), 10, 20), 26),
    Wrong(Trial(Call::Run(u32::MAX), 10, 20), 26),
    Wrong(Trial(Call::Run(9), 9, 20), 27),
    Wrong(Trial(Call::Run(9), 11, 20), 27),
    Wrong(Trial(Call::Run(9), 0, 20), 27),
    Wrong(Trial(Call::Run(9), 10, 19), 27),
    Wrong(Trial(Call::Run(9), 10, 21), 27),
    Wrong(Trial(Call::Run(9), 10, 0), 27),
    Wrong(Trial(Call::Run(9), 20, 10), 27),
    Wrong(Trial(Call::Run(0), 9, 20), 27),
    Wrong(Trial(Call::Run(1_000_001), 10, 21), 27),
];

// A refused run leaves all as the load did, and the next run begins there.
fn check_wrong(rt: &impl Abort, image: &[u8], wrong: &Wrong) {
    let Wrong(trial, number) = *wrong;
    let seen = make_trials(image, &[trial]);
    assert_eq!(rt; seen.told, Some(Err((number, 0))));
    assert_eq!(rt; seen.code, loaded_code());
    assert_eq!(rt; seen.memory, FRESH);
    assert_eq!(rt; seen.setpoint, None);
    let next = make_trials(image, &[run(1), trial, run(9)]);
    assert_eq!(rt; next.told, Some(ran(Stop::Halt(4), 2)));
}

#[test]
fn runs_are_refused(rt: HostRuntime) -> Result<(), Fail> {
    let image = image_of(&rt, &ROWS)?;
    for wrong in &WRONG {
        check_wrong(&rt, image.as_slice(), wrong);
    }
    Ok(())
}

fn check_used(rt: &impl Abort, seen: Seen, told: Told) {
    assert_eq!(rt; seen.told, Some(told));
    assert_eq!(rt; seen.code, loaded_code());
    assert_eq!(rt; seen.memory, USED);
    assert_eq!(rt; seen.setpoint, Some(5));
}

// The ends of the grants. The stores are left by the unload too.
#[test]
fn runs_are_granted(rt: HostRuntime) -> Result<(), Fail> {
    let image = image_of(&rt, &ROWS)?;
    let image = image.as_slice();
    let first = make_trials(image, &[run(1)]);
    assert_eq!(rt; first.told, Some(ran(Stop::Spent, 1)));
    assert_eq!(rt; first.memory, FRESH);
    check_used(
        &rt,
        make_trials(image, &[run(1_000_000)]),
        ran(Stop::Halt(4), 3),
    );
    check_used(&rt, make_trials(image, &[run(3)]), ran(Stop::Spent, 3));
    check_used(
        &rt,
        make_trials(image, &[run(3), run(1)]),
        ran(Stop::Halt(4), 0),
    );
    check_used(
        &rt,
        make_trials(image, &[run(2), run(1), run(1)]),
        ran(Stop::Halt(4), 0),
    );
    check_used(
        &rt,
        make_trials(image, &[run(9), run(9)]),
        ran(Stop::Halt(4), 0),
    );
    Ok(())
}

const RESTART: Trial = Trial(Call::Restart, 10, 20);

// After two steps: back to the start, so that the run makes three steps again.
#[test]
fn a_restart_goes_back_to_the_start(rt: HostRuntime) -> Result<(), Fail> {
    let image = image_of(&rt, &ROWS)?;
    let image = image.as_slice();
    let seen = make_trials(image, &[run(2), RESTART]);
    assert_eq!(rt; seen.told, Some(Ok(Done::Restarted)));
    assert_eq!(rt; seen.code, loaded_code());
    assert_eq!(rt; seen.memory, FRESH);
    assert_eq!(rt; seen.setpoint, None);
    check_used(
        &rt,
        make_trials(image, &[run(2), RESTART, run(9)]),
        ran(Stop::Halt(4), 3),
    );
    let blocked = make_trials(image, &[run(9), RESTART, run(9)]);
    assert_eq!(rt; blocked.told, Some(ran(Stop::Blocked(5), 2)));
    Ok(())
}

fn check_restart_refused(rt: &impl Abort, image: &[u8], slots: usize, cells: usize) {
    let wrong = Trial(Call::Restart, slots, cells);
    let seen = make_trials(image, &[run(2), wrong]);
    assert_eq!(rt; seen.told, Some(Err((27, 0))));
    assert_eq!(rt; seen.code, loaded_code());
    assert_eq!(rt; seen.memory, USED);
    check_used(
        rt,
        make_trials(image, &[run(2), wrong, run(9)]),
        ran(Stop::Halt(4), 1),
    );
}

#[test]
fn restarts_are_refused(rt: HostRuntime) -> Result<(), Fail> {
    let image = image_of(&rt, &ROWS)?;
    check_restart_refused(&rt, image.as_slice(), 9, 20);
    check_restart_refused(&rt, image.as_slice(), 11, 20);
    check_restart_refused(&rt, image.as_slice(), 10, 19);
    check_restart_refused(&rt, image.as_slice(), 10, 21);
    check_restart_refused(&rt, image.as_slice(), 0, 0);
    Ok(())
}
