use crate::book::Book;
use crate::trace::Event;
use crc::is_sealed;
use day::{Denial, Done, Reply};
use image::{Header, header_at};
use machine::instruction::Instruction;
use machine::{Op, Ran, Stop};
use refusal::{Reason, Refusal};
use std::fmt;

// An instruction in the notation of the assembler. Here and below, what only this program prints of a library's value is a
// wrapper with `Display`: one of the value itself would stand in the library, for every program.
#[derive(Clone, Copy)]
pub struct Assembly(pub Instruction);

impl fmt::Display for Assembly {
    fn fmt<W: fmt::Write>(&self, f: &mut fmt::Formatter<W>) -> fmt::Result {
        let Instruction { op, r, s, t, d } = self.0;
        match Op::try_from(op) {
            // the ops up to DIV take three registers, the others a register and an address
            Ok(op) if op <= Op::Div => write!(f, "{op:<4} {r},{s},{t}"),
            Ok(op) => write!(f, "{op:<4} {r},{d}({s})"),
            Err(_) => write!(f, "?    {r},{d}({s})"),
        }
    }
}

// What the block at a place of a file says of itself, right or wrong.
#[derive(Clone, Copy)]
pub struct Head {
    place: usize,
    header: Header,
    matches: bool,
}

impl Head {
    pub fn of(block: &[u8], place: usize) -> Option<Head> {
        let header = header_at(block, 0)?;
        Some(Head {
            place,
            header,
            matches: is_sealed(block),
        })
    }
}

impl fmt::Display for Head {
    fn fmt<W: fmt::Write>(&self, f: &mut fmt::Formatter<W>) -> fmt::Result {
        let place = self.place;
        let Header {
            number,
            index,
            blocks,
            count,
            check,
        } = self.header;
        let verdict = if self.matches {
            "matches"
        } else {
            "does not match"
        };
        write!(
            f,
            "block {place}: image {number}, index {index} of {blocks}, "
        )?;
        write!(f, "{count} instructions, check 0x{check:04x} {verdict}")
    }
}

// What a refusal means for a file of this size, and what to do.
#[derive(Clone, Copy)]
pub struct Advice {
    pub refusal: Refusal,
    pub size: usize,
}

impl fmt::Display for Advice {
    fn fmt<W: fmt::Write>(&self, f: &mut fmt::Formatter<W>) -> fmt::Result {
        let size = self.size;
        let place = self.refusal.place;
        match self.refusal.reason {
            Reason::CodeStoreTooShort => write!(
                f,
                "The program made too little room for the instructions: report it."
            ),
            Reason::ImageLength => write!(
                f,
                "The file has {size} bytes, but an image has 1 to 794 whole blocks of 512 bytes: see that it is an image, and fetch it again."
            ),
            Reason::BlockCheck => write!(
                f,
                "Block {place} does not match its check, so it was changed on the way or the file is no image: fetch the image again."
            ),
            Reason::BlockHeader => write!(
                f,
                "The header of block {place} does not fit there, so blocks are missing, out of order or of another image: fetch the whole image again."
            ),
            Reason::InstructionForm => write!(
                f,
                "Block {place} was written wrong, with an instruction that the machine does not have or an unused byte that is not zero: make the image anew."
            ),
            _ => write!(f, "No image is refused for this reason: report it."),
        }
    }
}

// Four bytes from a place on, in hexadecimal.
#[derive(Clone, Copy)]
pub struct FourBytes<'a> {
    pub bytes: &'a [u8],
    pub at: usize,
}

impl fmt::Display for FourBytes<'_> {
    fn fmt<W: fmt::Write>(&self, f: &mut fmt::Formatter<W>) -> fmt::Result {
        for byte in self.bytes.iter().skip(self.at).take(4) {
            write!(f, " {byte:02x}")?;
        }
        Ok(())
    }
}

impl fmt::Display for Event {
    fn fmt<W: fmt::Write>(&self, f: &mut fmt::Formatter<W>) -> fmt::Result {
        match self {
            Event::Took(v) => write!(f, "took {v}"),
            Event::Put(v) => write!(f, "put {v}"),
        }
    }
}

// Why a run stopped, with the value where it was blocked.
#[derive(Clone, Copy)]
struct BlockedValue(Stop);

impl fmt::Display for BlockedValue {
    fn fmt<W: fmt::Write>(&self, f: &mut fmt::Formatter<W>) -> fmt::Result {
        match self.0 {
            Stop::Blocked(v) => write!(f, ", value {v}"),
            _ => Ok(()),
        }
    }
}

#[derive(Clone, Copy)]
struct RanLine(Ran);

impl fmt::Display for RanLine {
    fn fmt<W: fmt::Write>(&self, f: &mut fmt::Formatter<W>) -> fmt::Result {
        let reason = self.0.stop.reason();
        let steps = self.0.steps;
        let value = BlockedValue(self.0.stop);
        write!(f, "reason {reason} after {steps} steps{value}")
    }
}

// What an order is answered, in the form that other tools read.
#[derive(Clone, Copy)]
pub struct ReplyLine(pub Reply);

impl fmt::Display for ReplyLine {
    fn fmt<W: fmt::Write>(&self, f: &mut fmt::Formatter<W>) -> fmt::Result {
        match self.0 {
            Ok(Done::Loaded(count)) => write!(f, "loaded {count}"),
            Ok(Done::Ran(ran)) => {
                let line = RanLine(ran);
                write!(f, "{line}")
            }
            Ok(Done::Restarted) => write!(f, "restarted"),
            Ok(Done::Unloaded) => write!(f, "unloaded"),
            Err(Denial::Unfit) => write!(f, "unfit"),
            Err(Denial::Refused { reason, place }) => {
                let refusal = reason.at(place);
                write!(f, "{refusal}")
            }
        }
    }
}

// A day book, with the events of the day.
#[derive(Clone, Copy)]
pub struct BookLine<'e> {
    pub book: Book,
    pub events: &'e [Event],
}

impl fmt::Display for BookLine<'_> {
    fn fmt<W: fmt::Write>(&self, f: &mut fmt::Formatter<W>) -> fmt::Result {
        let count = self.book.to.saturating_sub(self.book.from);
        for event in self.events.iter().skip(self.book.from).take(count) {
            write!(f, "{event}; ")?;
        }
        let steps = self.book.steps;
        write!(f, "{steps} steps")?;
        match self.book.last {
            Some(stop) => {
                let reason = stop.reason();
                let value = BlockedValue(stop);
                write!(f, "; last stop {reason}{value}")
            }
            None => Ok(()),
        }
    }
}
