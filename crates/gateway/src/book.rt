ghost use Rattle.std.specs.Prelude.{◌≡◌};
ghost use Rattle.gateway.specs.Summary.{begun, went_on, entered};

use day::{Done, Reply};
use machine::{Ran, Stop};

// The day book of a cabinet: which events since the machine's start, how many steps, and the last stop.
#[derive(Clone, Copy)]
pub struct Book {
    pub from: usize,
    pub to: usize,
    pub steps: u64,
    pub last: Option<Stop>,
}

impl Book {
    fn begin(events: usize) -> Book
        ensures { result ≡ begun events }
    {
        Book {
            from: events,
            to: events,
            steps: 0,
            last: None,
        }
    }

    fn go_on(self, ran: &Ran, events: usize) -> Book
        ensures { result ≡ went_on self ran.now events }
    {
        Book {
            from: self.from,
            to: events,
            steps: self.steps.saturating_add(u64::from(ran.steps)),
            last: Some(ran.stop),
        }
    }
}

// The book after an order with this reply; `events` is how many there were then.
pub fn enter(book: Option<Book>, reply: &Reply, events: usize) -> Option<Book>
    ensures { result ≡ entered book reply.now events }
{
    match (reply, book) {
        (Ok(Done::Loaded(_)), _) => Some(Book::begin(events)),
        (Ok(Done::Restarted), Some(_)) => Some(Book::begin(events)),
        (Ok(Done::Ran(ran)), Some(book)) => Some(book.go_on(ran, events)),
        _ => book,
    }
}
