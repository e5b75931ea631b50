ghost use Rattle.std.specs.Prelude.{◌≡◌};
ghost use Rattle.port.specs.Ways.{Took as Taken, Offered};
ghost use Rattle.gateway.specs.Noting.{noted};
ghost use Rattle.gateway.specs.Tracing.{after_take, after_put};

use crate::notes::Notes;
use port::Port;

// A number that was taken from a port, or put to it.
#[derive(Clone, Copy, PartialEq, Eq, Debug)]
pub enum Event {
    Took(i32),
    Put(i32),
}

// A port that notes what is taken from another and put to it, and else is that port.
#[derive(Drop)]
pub struct Trace<'t, P> {
    pub port: P,
    pub notes: Notes<'t, Event>,
}

impl<P: Port> Port for Trace<'_, P> {
    ghost Meaning = { P.Port.Meaning };

    ghost meaning = { λ s. P.Port.meaning s.port };

    ghost ways = { P.Port.ways };

    fn take(&mut self) -> Option<i32>
        ensures port { Taken P.Port.ways (P.Port.meaning self.old.port) result (P.Port.meaning self.new.port) }
        ensures events { noted self.new.notes ≡ after_take (noted self.old.notes) result }
    {
        let v = self.port.take()?;
        self.notes.add(Event::Took(v));
        Some(v)
    }

    fn put(&mut self, v: i32) -> bool
        ensures port { Offered P.Port.ways (P.Port.meaning self.old.port) v result (P.Port.meaning self.new.port) }
        ensures events { noted self.new.notes ≡ after_put (noted self.old.notes) v result }
    {
        if !self.port.put(v) {
            return false;
        }
        self.notes.add(Event::Put(v));
        true
    }
}
