ghost use Rattle.std.specs.Prelude.{◌≡◌, ◌-◌, length};
ghost use Rattle.gateway.specs.Noting.{noted, blank, and_then};

// A list in places that are handed in, since a take or a put that notes itself cannot fail for want of memory.
// Items that find no place are counted, and not held. Clauses read notes by `noted`: a model would forget the places behind the
// items, of which those who touch a port promise something.
#[derive(Drop)]
pub struct Notes<'n, T> {
    places: &'n mut [T],
    seen: usize,
}

impl<'n, T: Copy> Notes<'n, T> {
    pub fn new(places: &'n mut [T]) -> Notes<'n, T>
        ensures { noted result ≡ blank (length places.old) }
    {
        Notes { places, seen: 0 }
    }

    pub fn add(&mut self, item: T)
        ensures { noted self.new ≡ and_then (noted self.old) item }
    {
        if self.seen < self.places.len() {
            self.places[self.seen] = item;
        }
        self.seen = self.seen.saturating_add(1);
    }

    // How many items there were.
    pub fn seen(&self) -> usize
        ensures { result ≡ self.now.seen }
    {
        self.seen
    }

    // How many found no place.
    pub fn lost(&self) -> usize
        ensures { result ≡ self.now.seen - length self.now.places.now }
    {
        self.seen.saturating_sub(self.places.len())
    }
}
