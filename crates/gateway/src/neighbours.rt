ghost use Rattle.std.specs.Prelude.{◌≡◌};
ghost use Rattle.gateway.specs.Serving.{visited, told_by, after, told, planned as planned_at, Called};

use crate::notes::Notes;
use crate::script::{Hour, Visit};
use crate::trace::Trace;
use day::Others;
use port::{Ceiling, Live};
use std::fmt;

// What a visitor of the live port is told.
#[derive(Clone, Copy)]
pub enum Told {
    Accepted(i32),
    Full(i32),
    Fetched(Option<i32>),
}

impl fmt::Display for Told {
    fn fmt<W: fmt::Write>(&self, f: &mut fmt::Formatter<W>) -> fmt::Result {
        match self {
            Told::Accepted(v) => write!(f, "the meter gives {v}"),
            Told::Full(v) => write!(f, "the meter cannot give {v}"),
            Told::Fetched(Some(v)) => write!(f, "the charger fetches {v}"),
            Told::Fetched(None) => write!(f, "the charger finds no set point"),
        }
    }
}

// What happened before an order: what a visitor was told, and so many events so far.
#[derive(Clone, Copy)]
pub struct Sighting {
    pub told: Option<Told>,
    pub events: usize,
}

// The meter and the charger.
#[derive(Drop)]
pub struct Neighbours<'n> {
    pub hours: &'n [Hour],
    pub sightings: Notes<'n, Sighting>,
}

fn pay_visit(live: &mut Live, visit: Visit) -> Told
    ensures reply { result ≡ told_by live.old visit }
    ensures port { live.new ≡ visited live.old visit }
{
    match visit {
        Visit::Meter(v) => {
            if live.give(v) {
                Told::Accepted(v)
            } else {
                Told::Full(v)
            }
        }
        Visit::Charger => Told::Fetched(live.fetch()),
    }
}

fn visit_below(ceiling: &mut Ceiling<Live>, visit: Option<Visit>) -> Option<Told>
    ensures reply { result ≡ told ceiling.old.port visit }
    ensures port { ceiling.new.port ≡ after ceiling.old.port visit }
    ensures low { ceiling.new.low ≡ ceiling.old.low }
    ensures high { ceiling.new.high ≡ ceiling.old.high }
{
    Some(pay_visit(&mut ceiling.port, visit?))
}

// The visit that the script has at an hour.
fn planned(hours: &[Hour], k: usize) -> Option<Visit>
    ensures { result ≡ planned_at hours.now k }
{
    hours.get(k)?.0
}

impl<'t> Others<Trace<'t, Ceiling<Live>>> for Neighbours<'_> {
    ghost touched = { Called };

    fn touch(&mut self, port: &mut Trace<'t, Ceiling<Live>>) {
        let events = port.notes.seen();
        let visit = planned(self.hours, self.sightings.seen());
        let told = visit_below(&mut port.port, visit);
        self.sightings.add(Sighting { told, events });
    }
}
