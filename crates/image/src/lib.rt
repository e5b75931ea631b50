#![tactic(auto)]

mod encode;
mod layout;
mod reader;
mod writer;

pub use self::layout::{BLOCK, CAPACITY, LIMIT};
pub use self::reader::{Header, block_count, header_at, read};
pub use self::writer::write;
