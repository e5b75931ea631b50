#![tactic(auto)]

ghost use Rattle.port.specs.Ways.{Ways, Took, Offered};

mod ceiling;
mod live;
mod record;

pub use self::ceiling::Ceiling;
pub use self::live::Live;
pub use self::record::Record;

// What stands outside a cabinet: readings are taken from it, set points are put to it.
pub trait Port {
    ghost Meaning: { Type 0 };

    ghost meaning: { Self → Meaning };

    ghost ways: { Ways Meaning };

    // The number waiting, or none.
    fn take(&mut self) -> Option<i32>
        ensures { Took ways (meaning self.old) result (meaning self.new) };

    // Whether the number was accepted.
    fn put(&mut self, v: i32) -> bool
        ensures { Offered ways (meaning self.old) v result (meaning self.new) };
}
