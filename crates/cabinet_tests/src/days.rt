use crate::samples::*;
use cabinet::Empty;
use day::{Cabinet, Command, Denial, Done, Order, Others, Reply};
use fixtures::{Row, UNTOUCHED, card};
use machine::Stop;
use port::Live;
use std::process::Abort;
use std::test::Fail;

// Takes each reading on to the port.
static ROWS: [Row; 3] = [Row(1, 0, 0, 0, 0), Row(2, 0, 0, 0, 0), Row(10, 7, 0, 0, 0)];

// A denial with the number and the place of a refusal: the tests look at the numbers of the card.
#[derive(Clone, Copy, PartialEq, Eq, Debug)]
enum Denied {
    Unfit,
    Refused(u8, usize),
}

type Told = Result<Done, Denied>;

fn told_by(reply: Reply) -> Told {
    reply.map_err(|denial| match denial {
        Denial::Unfit => Denied::Unfit,
        Denial::Refused { reason, place } => {
            let (number, place) = card(reason.at(place));
            Denied::Refused(number, place)
        }
    })
}

// A meter that gives 1, 2, 3 and so on, one before each order; a charger that fetches and adds up.
#[derive(Clone, Copy)]
struct Street {
    visits: i32,
    fetched: i32,
}

impl Others<Live> for Street {
    ghost touched = { λ o p o' q. Unit {0} };

    fn touch(&mut self, port: &mut Live) {
        self.visits = self.visits.wrapping_add(1);
        let _ = port.give(self.visits);
        if let Some(v) = port.fetch() {
            self.fetched = self.fetched.wrapping_add(v);
        }
    }
}

const QUIET: Street = Street {
    visits: 0,
    fetched: 0,
};

// An order over ten slots and twenty cells.
fn order(command: Command<'_>) -> Order<'_> {
    Order {
        command,
        slots: 10,
        cells: 20,
    }
}

fn end(cabinet: Cabinet) -> bool {
    match cabinet {
        Cabinet::Off(empty) => {
            empty.retire();
            false
        }
        Cabinet::On(loaded) => {
            loaded.unload().retire();
            true
        }
    }
}

// What a day with room for N replies leaves.
#[derive(Clone, Copy)]
struct Evening<const N: usize> {
    replies: [Reply; N],
    street: Street,
    is_loaded: bool,
}

fn work<const N: usize>(orders: &[Order]) -> Evening<N> {
    let mut code = [UNTOUCHED; 12];
    let mut memory = [MARK; 24];
    let mut port = Live::new();
    let mut street = QUIET;
    let mut replies = [Err(Denial::Unfit); N];
    let cabinet = day::work(
        Empty::new(),
        orders,
        &mut code,
        &mut memory,
        &mut port,
        &mut street,
        &mut replies,
    );
    Evening {
        replies,
        street,
        is_loaded: end(cabinet),
    }
}

fn check_replies(rt: &impl Abort, replies: &[Reply], expected: &[Told]) {
    assert!(rt; expected.len() <= replies.len());
    for (reply, expected) in replies.iter().zip(expected.iter()) {
        assert_eq!(rt; told_by(*reply), *expected);
    }
}

// An empty cabinet can only be loaded, and a loaded one not loaded.
#[test]
fn unfit_commands_are_told(rt: HostRuntime) -> Result<(), Fail> {
    let image = image_of(&rt, &ROWS)?;
    let load = order(Command::Load(image.as_slice()));
    let evening = work::<16>(&[
        order(Command::Run(1)),
        order(Command::Restart),
        order(Command::Unload),
        load,
        load,
        order(Command::Unload),
        order(Command::Unload),
    ]);
    check_replies(
        &rt,
        &evening.replies,
        &[
            Err(Denied::Unfit),
            Err(Denied::Unfit),
            Err(Denied::Unfit),
            Ok(Done::Loaded(3)),
            Err(Denied::Unfit),
            Ok(Done::Unloaded),
            Err(Denied::Unfit),
        ],
    );
    assert!(rt; !evening.is_loaded);
    Ok(())
}

// Refused orders leave the machine where it is.
#[test]
fn refused_orders_change_nothing(rt: HostRuntime) -> Result<(), Fail> {
    let image = image_of(&rt, &ROWS)?;
    let load = order(Command::Load(image.as_slice()));
    let run = order(Command::Run(9));
    let evening = work::<16>(&[
        Order { cells: 15, ..load },
        Order { slots: 2, ..load },
        load,
        order(Command::Run(1)),
        order(Command::Run(0)),
        Order { cells: 19, ..run },
        Order { slots: 11, ..run },
        Order {
            command: Command::Restart,
            slots: 9,
            cells: 20,
        },
        run,
    ]);
    check_replies(
        &rt,
        &evening.replies,
        &[
            Err(Denied::Refused(25, 0)),
            Err(Denied::Refused(18, 0)),
            Ok(Done::Loaded(3)),
            ran(Stop::Spent, 1),
            Err(Denied::Refused(26, 0)),
            Err(Denied::Refused(27, 0)),
            Err(Denied::Refused(27, 0)),
            Err(Denied::Refused(27, 0)),
            ran(Stop::Blocked(5), 3),
        ],
    );
    assert!(rt; evening.is_loaded);
    Ok(())
}

// A reading is taken on in each run; the restart forgets none, and the charger fetches what was put.
#[test]
fn a_day_goes_on_between_meter_and_charger(rt: HostRuntime) -> Result<(), Fail> {
    let image = image_of(&rt, &ROWS)?;
    let run = order(Command::Run(9));
    let evening = work::<16>(&[
        order(Command::Load(image.as_slice())),
        run,
        run,
        run,
        order(Command::Restart),
        order(Command::Run(2)),
        order(Command::Unload),
    ]);
    check_replies(
        &rt,
        &evening.replies,
        &[
            Ok(Done::Loaded(3)),
            ran(Stop::Waiting, 3),
            ran(Stop::Waiting, 3),
            ran(Stop::Waiting, 3),
            Ok(Done::Restarted),
            ran(Stop::Spent, 2),
            Ok(Done::Unloaded),
        ],
    );
    assert!(rt; !evening.is_loaded);
    assert_eq!(rt; evening.street.visits, 7);
    assert_eq!(rt; evening.street.fetched, 1 + 3 + 4 + 5);
    Ok(())
}

// With room for two replies the third order is not worked.
#[test]
fn a_day_ends_with_the_room_for_replies(rt: HostRuntime) -> Result<(), Fail> {
    let image = image_of(&rt, &ROWS)?;
    let orders = [
        order(Command::Load(image.as_slice())),
        order(Command::Run(1)),
        order(Command::Unload),
    ];
    let evening = work::<2>(&orders);
    assert!(rt; evening.is_loaded);
    assert_eq!(rt; evening.street.visits, 2);
    check_replies(
        &rt,
        &evening.replies,
        &[Ok(Done::Loaded(3)), ran(Stop::Spent, 1)],
    );
    Ok(())
}
