ghost use Rattle.std.specs.Prelude.{◌≡◌};
ghost use Rattle.machine.specs.Reason.{reason_of};

// Why a run stops.
#[derive(Clone, Copy, PartialEq, Eq, Debug)]
pub enum Stop {
    Halt(u8),
    Divisor,
    Address,
    Place,
    Waiting,
    Blocked(i32),
    Spent,
}

impl Stop {
    pub fn reason(self) -> u8
        ensures { result ≡ reason_of self }
    {
        match self {
            Stop::Halt(r) => r,
            Stop::Divisor => 8,
            Stop::Address => 9,
            Stop::Place => 10,
            Stop::Waiting => 20,
            Stop::Blocked(_) => 21,
            Stop::Spent => 22,
        }
    }
}
