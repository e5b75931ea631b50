ghost use Rattle.std.specs.Prelude.{◌≡◌, ◌≤ℤ◌};
ghost use Rattle.std.specs.Int.{int_max, int_min};
ghost use Rattle.port.specs.Kinds.{Clipped, ceiling_ways};

use crate::Port;

// A port over another, whose puts are clipped between two bounds.
#[derive(Drop)]
pub struct Ceiling<P> {
    pub port: P,
    low: i32,
    high: i32,
    ghost in_order: { low ≤ℤ high },
}

impl<P> Ceiling<P> {
    // Bounds given in reverse are exchanged.
    pub fn new(port: P, a: i32, b: i32) -> Ceiling<P>
        ensures port { result.port ≡ port }
        ensures low { result.low ≡ int_min a b }
        ensures high { result.high ≡ int_max a b }
    {
        Ceiling {
            port,
            low: a.min(b),
            high: a.max(b),
        }
    }
}

impl<P: Port> Port for Ceiling<P> {
    ghost Meaning = { Clipped P.Port.Meaning };

    ghost meaning = { λ s. record { below = P.Port.meaning s.port; low = s.low; high = s.high } };

    ghost ways = { ceiling_ways P.Port.ways };

    fn take(&mut self) -> Option<i32> {
        self.port.take()
    }

    fn put(&mut self, v: i32) -> bool {
        self.port.put(v.clamp(self.low, self.high))
    }
}
