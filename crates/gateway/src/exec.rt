ghost use Rattle.std.specs.Prelude.{◌≡◌, IfOk, map};
ghost use Rattle.day.specs.declared.Command.TheVariants.{Run};
ghost use Rattle.gateway.specs.Marking.{Marked};
ghost use Rattle.gateway.specs.Orders.{like as like_order, load_and_runs};

use crate::arguments::Plan;
use crate::ending::end;
use crate::error::Fault;
use crate::notes::Notes;
use crate::reading::{code_store, read_file};
use crate::text::ReplyLine;
use crate::trace::{Event, Trace};
use cabinet::Empty;
use day::{Command, Denial, Done, Order, Others, Reply};
use machine::instruction::Instruction;
use port::{Port, Record};
use std::alloc::{AllocError, Global};
use std::io;

// Nobody else is at a record port; how many events there were is noted before each order.
#[derive(Drop)]
struct Nobody<'m> {
    marks: Notes<'m, usize>,
}

impl<'t, P> Others<Trace<'t, P>> for Nobody<'_> {
    ghost touched = { Marked };

    fn touch(&mut self, port: &mut Trace<'t, P>) {
        self.marks.add(port.notes.seen());
    }
}

// What is handed in for a day, and what it leaves there: the calls fill the replies, and whoever else is at the port the marks.
#[derive(Drop)]
struct Stores {
    code: Vec<Instruction>,
    memory: Vec<i32>,
    log: Vec<i32>,
    replies: Vec<Reply>,
    events: Vec<Event>,
    // how many events there were before each order, and at the end
    marks: Vec<usize>,
}

impl Stores {
    // A record port has an event for each reading and each place of its log, and no more.
    fn new(heap: Global, plan: &Plan, image: &[u8]) -> Result<Stores, AllocError> {
        let runs = plan.grants.len();
        let events = plan.readings.len().saturating_add(plan.log);
        Ok(Stores {
            code: code_store(heap, image)?,
            memory: vec![in heap; 0; plan.cells]?,
            log: vec![in heap; 0; plan.log]?,
            replies: vec![in heap; Err(Denial::Unfit); runs.saturating_add(1)]?,
            events: vec![in heap; Event::Took(0); events]?,
            marks: vec![in heap; 0; runs.saturating_add(2)]?,
        })
    }

    fn work(&mut self, orders: &[Order], readings: &[i32]) {
        let mut port = Trace {
            port: Record::new(readings, self.log.as_mut_slice()),
            notes: Notes::new(self.events.as_mut_slice()),
        };
        let mut nobody = Nobody {
            marks: Notes::new(self.marks.as_mut_slice()),
        };
        let cabinet = day::work(
            Empty::new(),
            orders,
            self.code.as_mut_slice(),
            self.memory.as_mut_slice(),
            &mut port,
            &mut nobody,
            self.replies.as_mut_slice(),
        );
        end(cabinet);
        nobody.marks.add(port.notes.seen());
    }
}

// An order over the fronts of the stores that another has.
pub(crate) fn like<'a>(order: Order<'a>, command: Command<'a>) -> Order<'a>
    ensures { result ≡ like_order order.entry command.entry }
{
    Order { command, ..order }
}

// A run for each grant, over the fronts of a load.
fn runs<'a>(heap: Global, load: Order<'a>, grants: &[u32]) -> Result<Vec<Order<'a>>, AllocError>
    ensures { IfOk result (λ v. v.items ≡ map (λ g. like_order load.entry (Run g)) grants.now) }
{
    grants
        .iter()
        .map(|grant| like(load, Command::Run(*grant)))
        .collect(heap)
}

// A load, and a run for each grant.
fn load_and_runs<'a>(
    heap: Global,
    load: Order<'a>,
    grants: &[u32],
) -> Result<Vec<Order<'a>>, AllocError>
    ensures { IfOk result (λ v. v.items ≡ load_and_runs load.entry grants.now) }
{
    // of `once` and `chain` the check does not follow the items
    let mut orders = runs(heap, load, grants)?;
    // `insert` alone would double the room
    orders.reserve_exact(1)?;
    orders.insert(0, load)?;
    Ok(orders)
}

fn print_events(rt: &HostRuntime, events: &[Event], from: usize, to: usize) -> io::Result<()> {
    for event in events.iter().skip(from).take(to.saturating_sub(from)) {
        println!(rt; "{event}")?;
    }
    Ok(())
}

fn print_runs(rt: &HostRuntime, grants: &[u32], stores: &Stores) -> io::Result<()> {
    let answers = grants.iter().zip(stores.replies.iter().skip(1));
    for ((grant, reply), ends) in answers.zip(stores.marks.windows(2).skip(1)) {
        print_events(rt, stores.events.as_slice(), ends[0], ends[1])?;
        let line = ReplyLine(*reply);
        println!(rt; "run {grant}: {line}")?;
    }
    Ok(())
}

fn exec_image(rt: &HostRuntime, plan: &Plan, image: &[u8]) -> Result<(), Fault> {
    let heap = rt.alloc();
    let grants = plan.grants.as_slice();
    let mut stores = Stores::new(heap, plan, image)?;
    let load = Order {
        command: Command::Load(image),
        slots: stores.code.len(),
        cells: stores.memory.len(),
    };
    let orders = load_and_runs(heap, load, grants)?;
    stores.work(orders.as_slice(), plan.readings.as_slice());
    if let Some(reply) = stores.replies.first() {
        let line = ReplyLine(*reply);
        println!(rt; "{line}")?;
        if let Ok(Done::Loaded(_)) = reply {
            print_runs(rt, grants, &stores)?;
        }
    }
    Ok(())
}

// Loads the image in a file, and runs it over a record port, once for each grant.
pub fn exec_file(rt: &HostRuntime, path: String, plan: &Plan) -> Result<(), Fault> {
    let image = read_file(rt, path)?;
    exec_image(rt, plan, image.as_slice())
}
