use std::fmt;

// Who reaches the live port, if anybody does.
#[derive(Clone, Copy)]
pub enum Visit {
    Meter(i32),
    Charger,
}

#[derive(Clone, Copy)]
pub enum Rule {
    Limit,
    Follower,
}

#[derive(Clone, Copy)]
pub enum Call {
    Load(Rule),
    Run(u32),
    Restart,
    Unload,
}

// A visit before an order, and the call that is ordered.
#[derive(Clone, Copy)]
pub struct Hour(pub Option<Visit>, pub Call);

pub const HOURS: usize = 16;

// A day that shows a spent grant, a refused and an unfit order, a blocked put and a number above the ceiling.
pub static DAY: [Hour; HOURS] = [
    Hour(None, Call::Load(Rule::Limit)),
    Hour(None, Call::Run(1)),
    Hour(None, Call::Run(0)),
    Hour(None, Call::Run(9)),
    Hour(None, Call::Restart),
    Hour(None, Call::Run(9)),
    Hour(Some(Visit::Charger), Call::Run(9)),
    Hour(None, Call::Unload),
    Hour(None, Call::Run(9)),
    Hour(Some(Visit::Charger), Call::Load(Rule::Follower)),
    Hour(None, Call::Run(9)),
    Hour(Some(Visit::Meter(700)), Call::Run(9)),
    Hour(Some(Visit::Meter(1200)), Call::Run(9)),
    Hour(Some(Visit::Charger), Call::Run(9)),
    Hour(Some(Visit::Charger), Call::Restart),
    Hour(None, Call::Unload),
];

impl fmt::Display for Call {
    fn fmt<W: fmt::Write>(&self, f: &mut fmt::Formatter<W>) -> fmt::Result {
        match self {
            Call::Load(Rule::Limit) => write!(f, "load the limit"),
            Call::Load(Rule::Follower) => write!(f, "load the follower"),
            Call::Run(grant) => write!(f, "run {grant}"),
            Call::Restart => write!(f, "restart"),
            Call::Unload => write!(f, "unload"),
        }
    }
}
