use refusal::Refusal;
use std::alloc::{AllocError, AllocFailed};
use std::{fmt, io};

const USAGE: &'static str =
    "usage: gateway [show FILE | exec IMAGE --memory CELLS --grants N,N,.. [--readings V,V,..] [--log PLACES]]
CELLS and PLACES are at most 1000000; without --log there are 1000 places.";

// Why the program, or a part of it, gives up.
#[derive(Drop)]
pub enum Fault {
    Usage,
    Unreadable(String, io::Error),
    System(io::Error),
    Refused(Refusal),
}

impl From<io::Error> for Fault {
    fn from(error: io::Error) -> Fault {
        Fault::System(error)
    }
}

impl From<AllocError> for Fault {
    fn from(error: AllocError) -> Fault {
        Fault::System(io::Error::from(error))
    }
}

impl<T: Drop> From<AllocFailed<T>> for Fault {
    fn from(refused: AllocFailed<T>) -> Fault {
        Fault::System(io::Error::from(AllocError::from(refused)))
    }
}

impl From<Refusal> for Fault {
    fn from(refusal: Refusal) -> Fault {
        Fault::Refused(refusal)
    }
}

impl fmt::Display for Fault {
    fn fmt<W: fmt::Write>(&self, f: &mut fmt::Formatter<W>) -> fmt::Result {
        match self {
            Fault::Usage => write!(f, "{USAGE}"),
            Fault::Unreadable(path, error) => write!(f, "cannot read {path}: {error}"),
            Fault::System(error) => write!(f, "{error}"),
            Fault::Refused(refusal) => write!(f, "{refusal}"),
        }
    }
}
