#![tactic(auto)]

ghost use Rattle.std.specs.Prelude.{◌≡◌, min};
ghost use Rattle.day.specs.Answers.{denied, setup_of, answer, answer_order};
ghost use Rattle.day.specs.Day.{Worked};
ghost use Rattle.day.specs.declared.Cabinet.TheVariants.{Off};

use cabinet::{Empty, Loaded, Refused, Started};
use machine::Ran;
use machine::instruction::Instruction;
use port::Port;
use refusal::{Reason, Refusal};

// Whoever else reaches the port between the calls. Nothing is promised of what they do there.
pub trait Others<P> {
    ghost touched: { Self → P → Self → P → Type 0 };

    fn touch(&mut self, port: &mut P)
        ensures { touched self.old port.old self.new port.new };
}

pub enum Cabinet {
    Off(Empty),
    On(Loaded),
}

#[derive(Clone, Copy)]
pub enum Command<'a> {
    Run(u32),
    Load(&'a [u8]),
    Restart,
    Unload,
}

// A command, with the lengths of the fronts of the code store and the memory that are handed in with it.
#[derive(Clone, Copy)]
pub struct Order<'a> {
    pub command: Command<'a>,
    pub slots: usize,
    pub cells: usize,
}

// What a granted order did.
#[derive(Clone, Copy, PartialEq, Eq, Debug)]
pub enum Done {
    Loaded(usize),
    Ran(Ran),
    Restarted,
    Unloaded,
}

// Why an order is denied: the cabinet's state does not have the command, or the call refuses. A refusal stands here by its
// parts: as one value it would make each reply of a day a third larger.
#[derive(Clone, Copy, PartialEq, Eq, Debug)]
pub enum Denial {
    Unfit,
    Refused { reason: Reason, place: usize },
}

impl From<Refusal> for Denial {
    ghost from_gives = { λ refusal d. d ≡ denied refusal };

    fn from(refusal: Refusal) -> Denial {
        let Refusal { reason, place } = refusal;
        Denial::Refused { reason, place }
    }
}

pub type Reply = Result<Done, Denial>;

struct Answered {
    cabinet: Cabinet,
    reply: Reply,
}

// Here and in `obey_order` a struct of the stores and the port was tried: the checker does not yet follow fields behind it that
// are lent to one call.
fn obey<P: Port>(
    cabinet: Cabinet,
    command: Command,
    code: &mut [Instruction],
    memory: &mut [i32],
    port: &mut P,
) -> Answered
    ensures { record {
      reply = result.reply;
      setup = setup_of result.cabinet code.new memory.new (P.Port.meaning port.new);
    }
        ≡ answer P.Port.ways command.entry
        (setup_of cabinet code.old memory.old (P.Port.meaning port.old)) }
{
    match (cabinet, command) {
        (Cabinet::Off(empty), Command::Load(image)) => match empty.load(image, code, memory) {
            Ok(Started { cabinet, count }) => Answered {
                cabinet: Cabinet::On(cabinet),
                reply: Ok(Done::Loaded(count)),
            },
            Err(Refused { refusal, cabinet }) => Answered {
                cabinet: Cabinet::Off(cabinet),
                reply: Err(Denial::from(refusal)),
            },
        },
        (Cabinet::On(mut loaded), Command::Run(grant)) => {
            let ran = loaded.run(code, memory, port, grant);
            Answered {
                cabinet: Cabinet::On(loaded),
                reply: ran.map(Done::Ran).map_err(Denial::from),
            }
        }
        (Cabinet::On(mut loaded), Command::Restart) => {
            let restarted = loaded.restart(code, memory);
            Answered {
                cabinet: Cabinet::On(loaded),
                reply: restarted.map(|()| Done::Restarted).map_err(Denial::from),
            }
        }
        (Cabinet::On(loaded), Command::Unload) => Answered {
            cabinet: Cabinet::Off(loaded.unload()),
            reply: Ok(Done::Unloaded),
        },
        (cabinet, _) => Answered {
            cabinet,
            reply: Err(Denial::Unfit),
        },
    }
}

fn obey_order<P: Port>(
    cabinet: Cabinet,
    order: &Order,
    code: &mut [Instruction],
    memory: &mut [i32],
    port: &mut P,
) -> Answered
    ensures { record {
      reply = result.reply;
      setup = setup_of result.cabinet code.new memory.new (P.Port.meaning port.new);
    }
        ≡ answer_order P.Port.ways order.now
        (setup_of cabinet code.old memory.old (P.Port.meaning port.old)) }
{
    let slots = order.slots.min(code.len());
    let cells = order.cells.min(memory.len());
    let front = &mut code[0..slots];
    let room = &mut memory[0..cells];
    obey(cabinet, order.command, front, room, port)
}

// Works through a day's orders for one cabinet that is empty in the morning; others reach the port before each.
// It stops where there is no more room for replies. Stores, port and replies come one by one: they are the caller's.
pub fn work<P: Port, O: Others<P>>(
    empty: Empty,
    orders: &[Order],
    code: &mut [Instruction],
    memory: &mut [i32],
    port: &mut P,
    others: &mut O,
    replies: &mut [Reply],
) -> Cabinet
    ensures { Worked P.Port.ways P.Port.meaning O.Others.touched
        others.old port.old (setup_of (Off empty) code.old memory.old (P.Port.meaning port.old))
        orders.now replies.old replies.new
        others.new port.new (setup_of result code.new memory.new (P.Port.meaning port.new)) }
{
    let mut cabinet = Cabinet::Off(empty);
    // After `zip` with `iter_mut` nothing is known of the replies, so they go by index.
    let count = orders.len().min(replies.len());
    for (i, order) in orders[..count].iter().enumerate() {
        others.touch(port);
        let answered = obey_order(cabinet, order, code, memory, port);
        Answered {
            cabinet,
            reply: replies[i],
        } = answered;
    }
    cabinet
}
