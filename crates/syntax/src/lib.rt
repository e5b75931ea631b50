#![tactic(auto)]

mod node;
mod operator;
mod spot;

pub use self::node::{Name, Node, TypeName};
pub use self::operator::{Level, Operator};
pub use self::spot::{Home, Meant, Spot};
