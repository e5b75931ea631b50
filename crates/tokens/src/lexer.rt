ghost use Rattle.std.specs.Prelude.{◌≡◌, ◌+◌, ◌^◌, ◌<◌};
ghost use Rattle.tokens.specs.Reply.{Lexes, UniqueLexemes, PlacesRise, Samples};
ghost use Rattle.tokens.specs.Survey.{apart, join, counted, Surveyed, Faultless, Filled};

use crate::bytes::{Class, class_of};
use crate::scan::{Next, next_at};
use crate::token::Token;
use refusal::{Reason, Refusal};

// The most bytes of a source, and the most tokens.
pub const MAX_BYTES: usize = 16384;

pub const MAX_TOKENS: usize = 2048;

// Whether one of two classes is that of a word and the other that of a number.
fn are_apart(a: Class, b: Class) -> bool
    ensures { result ≡ apart a b }
{
    matches!(
        (a, b),
        (Class::Letter, Class::Digit) | (Class::Digit, Class::Letter)
    )
}

// What is kept of the lexemes so far: their number, the end of the last one and the class of its first byte,
// and the place of the first one too many, if there is one. Before the first lexeme the end 0 and the class Other join nothing.
#[derive(Clone, Copy)]
struct Seen {
    count: usize,
    end: usize,
    class: Class,
    surplus: Option<usize>,
}

impl Seen {
    // What is kept after one more lexeme, unless a separator is missing before it.
    fn joined_to(self, place: usize, class: Class, end: usize) -> Result<Seen, Refusal>
        requires { self.count + 1 < 2 ^ 64 }
        ensures { result ≡ join self place class end }
    {
        if self.end == place && are_apart(self.class, class) {
            return Err(Reason::MissingSeparator.at(place));
        }
        let surplus = if self.count == MAX_TOKENS {
            Some(place)
        } else {
            self.surplus
        };
        Ok(Seen {
            count: self.count + 1,
            end,
            class,
            surplus,
        })
    }

    fn counted(self) -> Result<usize, Refusal>
        ensures { result ≡ counted self }
    {
        match self.surplus {
            Some(place) => Err(Reason::TooManyTokens.at(place)),
            None => Ok(self.count),
        }
    }
}

// The number of lexemes, or the first fault.
fn survey(source: &[u8]) -> Result<usize, Refusal>
    ensures { Surveyed source.now result }
{
    let mut rest = source;
    let mut seen = Seen {
        count: 0,
        end: 0,
        class: Class::Other,
        surplus: None,
    };
    // The rest of the source is the cursor: an iterator would only wrap it.
    loop {
        let place = source.len() - rest.len();
        match next_at(place, rest)? {
            Next::End => return seen.counted(),
            Next::Gap(after) => rest = after,
            Next::Token(_, after) => {
                let class = class_of(rest[0]);
                seen = seen.joined_to(place, class, source.len() - after.len())?;
                rest = after;
            }
        }
    }
}

// Writes the tokens of a source without fault. They are counted by hand: gaps stand between them, and fill no element.
fn fill<'a>(source: &'a [u8], tokens: &mut [Token<'a>; MAX_TOKENS])
    requires { Faultless source.now }
    ensures { Filled source.now tokens.old tokens.new }
{
    let mut rest = source;
    let mut count = 0;
    while let Ok(next) = next_at(source.len() - rest.len(), rest) {
        match next {
            Next::End => return,
            Next::Gap(after) => rest = after,
            Next::Token(token, after) => {
                tokens[count] = token;
                count += 1;
                rest = after;
            }
        }
    }
}

fn lex_source<'a>(source: &'a [u8], tokens: &mut [Token<'a>; MAX_TOKENS]) -> Result<usize, Refusal>
    ensures { Lexes source.now tokens.old tokens.new result }
{
    if source.len() > MAX_BYTES {
        return Err(Reason::SourceTooLong.at(MAX_BYTES));
    }
    let count = survey(source)?;
    fill(source, tokens);
    Ok(count)
}

// Writes the tokens of the source to the front of the array and gives their number. The array is handed in, since the libraries
// have no heap.
pub fn lex<'a>(source: &'a [u8], tokens: &mut [Token<'a>; MAX_TOKENS]) -> Result<usize, Refusal>
    ensures result { Lexes source.now tokens.old tokens.new result }
    ensures unique { UniqueLexemes }
    ensures rising { PlacesRise }
    ensures samples { Samples }
{
    lex_source(source, tokens)
}
