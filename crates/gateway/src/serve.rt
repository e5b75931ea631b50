ghost use Rattle.std.specs.Prelude.{◌≡◌, IfOk};
ghost use Rattle.gateway.specs.Orders.{asked, scripted};

use crate::book::{Book, enter};
use crate::deliver::Block;
use crate::ending::end;
use crate::error::Fault;
use crate::exec::like;
use crate::neighbours::{Neighbours, Sighting};
use crate::notes::Notes;
use crate::print::print_code;
use crate::reading::BLANK;
use crate::script::{Call, DAY, HOURS, Hour, Rule};
use crate::text::{BookLine, ReplyLine};
use crate::trace::{Event, Trace};
use cabinet::Empty;
use day::{Command, Denial, Order, Reply};
use image::BLOCK;
use machine::Op;
use machine::instruction::Instruction;
use port::{Ceiling, Live};
use std::alloc::{AllocError, Global};

const FOLLOWER_NUMBER: u32 = 8;

const CEILING: i32 = 1000;

const SLOTS: usize = 3;

const CELLS: usize = 16;

// Places for the events of the day; it has six.
const EVENTS: usize = 16;

// Code that puts each reading on, and goes back to the start. A `static` can call no function, so the ops are cast.
static FOLLOWER: [Instruction; SLOTS] = [
    Instruction {
        op: Op::In as u8,
        ..BLANK
    },
    Instruction {
        op: Op::Out as u8,
        ..BLANK
    },
    Instruction {
        op: Op::Ldc as u8,
        r: 7,
        ..BLANK
    },
];

// The ends of the day's hours.
const ENDS: usize = HOURS + 1;

// What a day leaves behind: the replies, what was seen before each order and at the end, and the events. The calls fill the
// first and the neighbours the second, so they are two arrays.
#[derive(Clone, Copy)]
struct Records {
    replies: [Reply; HOURS],
    sightings: [Sighting; ENDS],
    events: [Event; EVENTS],
}

// The orders that load the two codes.
#[derive(Clone, Copy)]
struct Loads<'a> {
    limit: Order<'a>,
    follower: Order<'a>,
}

fn load(image: &[u8]) -> Order<'_> {
    Order {
        command: Command::Load(image),
        slots: SLOTS,
        cells: CELLS,
    }
}

fn order<'a>(loads: Loads<'a>, call: Call) -> Order<'a>
    ensures { result ≡ asked loads.entry call }
{
    match call {
        Call::Load(Rule::Limit) => loads.limit,
        Call::Load(Rule::Follower) => loads.follower,
        Call::Run(grant) => like(loads.limit, Command::Run(grant)),
        Call::Restart => like(loads.limit, Command::Restart),
        Call::Unload => like(loads.limit, Command::Unload),
    }
}

fn orders<'a>(heap: Global, loads: Loads<'a>, hours: &[Hour]) -> Result<Vec<Order<'a>>, AllocError>
    ensures { IfOk result (λ v. v.items ≡ scripted loads.entry hours.now) }
{
    hours.iter().map(|hour| order(loads, hour.1)).collect(heap)
}

// Works through the script for one cabinet, over a live port with a ceiling.
fn work_day(orders: &[Order]) -> Records {
    let mut replies = [Err(Denial::Unfit); HOURS];
    let mut sightings = [Sighting {
        told: None,
        events: 0,
    }; ENDS];
    let mut events = [Event::Took(0); EVENTS];
    let mut code = [BLANK; SLOTS];
    let mut memory = [0; CELLS];
    let mut port = Trace {
        port: Ceiling::new(Live::new(), 0, CEILING),
        notes: Notes::new(&mut events),
    };
    let mut neighbours = Neighbours {
        hours: &DAY,
        sightings: Notes::new(&mut sightings),
    };
    let cabinet = day::work(
        Empty::new(),
        orders,
        &mut code,
        &mut memory,
        &mut port,
        &mut neighbours,
        &mut replies,
    );
    end(cabinet);
    let last = Sighting {
        told: None,
        events: port.notes.seen(),
    };
    neighbours.sightings.add(last);
    Records {
        replies,
        sightings,
        events,
    }
}

fn serve_day<'a>(heap: Global, limit: &'a [u8], follower: &'a [u8]) -> Result<Records, AllocError> {
    let loads = Loads {
        limit: load(limit),
        follower: load(follower),
    };
    let orders = orders(heap, loads, &DAY)?;
    Ok(work_day(orders.as_slice()))
}

fn print_answer(
    rt: &HostRuntime,
    call: Call,
    reply: &Reply,
    book: Option<Book>,
    events: &[Event],
) -> Result<(), Fault> {
    let reply = ReplyLine(*reply);
    let answer = format!(in rt.alloc(); "{call}: {reply}")?;
    match book {
        Some(book) => {
            let line = BookLine { book, events };
            println!(rt; "  {answer:<42}  book: {line}")?;
        }
        None => println!(rt; "  {answer}")?,
    }
    Ok(())
}

fn print_day(rt: &HostRuntime, records: &Records) -> Result<(), Fault> {
    let mut book = None;
    let answers = DAY.iter().zip(records.replies.iter());
    for ((hour, reply), ends) in answers.zip(records.sightings.windows(2)) {
        if let Some(told) = ends[0].told {
            println!(rt; "  {told}")?;
        }
        book = enter(book, reply, ends[1].events);
        print_answer(rt, hour.1, reply, book, &records.events)?;
    }
    Ok(())
}

// Runs an image of a limit, and then code that follows the meter, in a cabinet between a meter and a charger.
pub fn serve_limit(rt: &HostRuntime, limit: &Block) -> Result<(), Fault> {
    let mut follower = [0; BLOCK];
    let _blocks = image::write(FOLLOWER_NUMBER, &FOLLOWER, &mut follower)?;
    println!(rt; "\nCode that follows the meter:")?;
    print_code(rt, &FOLLOWER)?;
    println!(rt;
        "\nA cabinet's day over a live port with a ceiling of {CEILING}, and its book after each call:"
    )?;
    let records = serve_day(rt.alloc(), limit, &follower)?;
    print_day(rt, &records)
}
