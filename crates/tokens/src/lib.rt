#![tactic(auto)]

mod bytes;
mod lexer;
mod marks;
mod scan;
mod token;

pub use self::lexer::{MAX_BYTES, MAX_TOKENS, lex};
pub use self::token::{Mark, Token};
