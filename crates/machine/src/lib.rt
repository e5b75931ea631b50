#![tactic(auto)]

pub mod grant;
pub mod instruction;
pub mod op;
mod step;
pub mod stop;

pub use self::grant::{Ran, run};
pub use self::op::{Op, UnknownOp};
pub use self::stop::Stop;
