ghost use Rattle.std.specs.Prelude.{◌≡◌, ◌+◌, ◌-◌, ◌<◌, ◌≤◌, [], ◌∷◌, ◌++◌, length, take};
ghost use Rattle.port.specs.Kinds.{Recorded, recorded, record_ways};

use crate::Port;

// A port over readings and a log that are handed in: the libraries have no heap.
#[derive(Drop)]
pub struct Record<'r, 'l> {
    total: usize,
    unread: &'r [i32],
    log: &'l mut [i32],
    count: usize,
    ghost taken: { length unread.now ≤ total },
    ghost within: { count ≤ length log.now },
}

impl<'r, 'l> Record<'r, 'l> {
    pub fn new(readings: &'r [i32], log: &'l mut [i32]) -> Record<'r, 'l>
        ensures meaning { recorded result.unread.now result.log.now result.count
            ≡ record { unread = readings.now; log = []; room = length log.old } }
        ensures count { result.count ≡ 0 }
        ensures total { result.total ≡ length readings.now }
        ensures log { result.log.now ≡ log.old }
    {
        Record {
            total: readings.len(),
            unread: readings,
            log,
            count: 0,
        }
    }

    // How many readings were taken.
    pub fn taken(&self) -> usize
        ensures { result ≡ self.now.total - length self.now.unread.now }
    {
        self.total - self.unread.len()
    }

    // The numbers that were put.
    fn filled(&self) -> &[i32]
        ensures { result.now ≡ take self.now.count self.now.log.now }
    {
        &self.log[0..self.count]
    }

    // How many numbers were put.
    pub fn written(&self) -> usize
        ensures { result ≡ length (take self.now.count self.now.log.now) }
    {
        self.filled().len()
    }
}

impl Port for Record<'_, '_> {
    ghost Meaning = { Recorded };

    ghost meaning = { λ s. recorded s.unread.now s.log.now s.count };

    ghost ways = { record_ways };

    fn take(&mut self) -> Option<i32> {
        let (first, rest) = self.unread.split_first()?;
        self.unread = rest;
        Some(*first)
    }

    fn put(&mut self, v: i32) -> bool {
        if self.count == self.log.len() {
            return false;
        }
        self.log[self.count] = v;
        self.count += 1;
        true
    }
}
