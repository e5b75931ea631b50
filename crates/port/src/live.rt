ghost use Rattle.std.specs.Prelude.{◌≡◌, not, is_some, None};
ghost use Rattle.port.specs.declared.live.Live.{Live};
ghost use Rattle.port.specs.Kinds.{live_ways, filled, given, fetched};

use crate::Port;

// A port between a meter and a charger, which is its own meaning.
#[derive(Clone, Copy, PartialEq, Eq, Debug)]
pub struct Live {
    reading: Option<i32>,
    setpoint: Option<i32>,
}

// Puts a number in an empty place, and says whether it was empty.
fn fill(place: &mut Option<i32>, v: i32) -> bool
    ensures reply { result ≡ not (is_some place.old) }
    ensures place { place.new ≡ filled place.old v }
{
    if place.is_some() {
        return false;
    }
    *place = Some(v);
    true
}

impl Live {
    pub fn new() -> Live
        ensures { result ≡ record { reading = None; setpoint = None } }
    {
        Live {
            reading: None,
            setpoint: None,
        }
    }

    // The meter gives a reading, unless told full.
    pub fn give(&mut self, v: i32) -> bool
        ensures reply { result ≡ not (is_some self.old.reading) }
        ensures port { self.new ≡ given self.old v }
    {
        fill(&mut self.reading, v)
    }

    // The charger fetches the set point, or none.
    pub fn fetch(&mut self) -> Option<i32>
        ensures reply { result ≡ self.old.setpoint }
        ensures port { self.new ≡ fetched self.old }
    {
        self.setpoint.take()
    }
}

impl Port for Live {
    ghost Meaning = { Live };

    ghost meaning = { λ s. s };

    ghost ways = { live_ways };

    fn take(&mut self) -> Option<i32> {
        self.reading.take()
    }

    fn put(&mut self, v: i32) -> bool {
        fill(&mut self.setpoint, v)
    }
}
