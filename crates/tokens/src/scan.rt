ghost use Rattle.std.specs.Prelude.{◌≡◌, ◌+◌, ◌-◌, ◌*◌, ◌≤◌};
ghost use Rattle.std.specs.List.{AllPass};
ghost use Rattle.tokens.specs.Lexemes.{digit, decimal};
ghost use Rattle.tokens.specs.Scanning.{limited, WordToken, Stands};

use crate::bytes::{
    Class, after_comment, after_opening, class_of, leading_digits, leading_letters,
};
use crate::marks::{keyword_of, symbol};
use crate::token::Token;
use refusal::{Reason, Refusal};

const MAX_NUMBER: u32 = 2147483647;

// What stands at the front of some bytes, and the bytes after it.
#[derive(Clone, Copy, PartialEq, Eq, Debug)]
pub enum Next<'a> {
    End,
    Gap(&'a [u8]),
    Token(Token<'a>, &'a [u8]),
}

// A word is a keyword or a name.
fn word_token<'a>(place: usize, word: &'a [u8]) -> Token<'a>
    ensures { WordToken place word.now result }
{
    match keyword_of(word) {
        Some(mark) => Token::Mark(place, mark),
        None => Token::Name(place, word),
    }
}

// One more digit, unless the number is then too large.
fn with_digit(value: u32, byte: u8) -> Option<u32>
    requires { 48 ≤ byte }
    ensures { result ≡ limited (value * 10 + (byte - 48)) }
{
    let digit = u32::from(byte - b'0');
    value
        .checked_mul(10)?
        .checked_add(digit)
        .filter(|n| *n <= MAX_NUMBER)
}

// The number that the digits write, unless it is too large. The `parse` of `std` takes a text, and these are bytes.
fn value_of(digits: &[u8]) -> Option<u32>
    requires { AllPass digit digits.now }
    ensures { result ≡ limited (decimal digits.now) }
{
    let mut value = 0;
    for d in digits {
        value = with_digit(value, *d)?;
    }
    Some(value)
}

pub fn next_at<'a>(place: usize, s: &'a [u8]) -> Result<Next<'a>, Refusal>
    ensures { Stands place s.now result }
{
    let [first, behind @ ..] = s else {
        return Ok(Next::End);
    };
    match class_of(*first) {
        Class::White => Ok(Next::Gap(behind)),
        Class::Letter => {
            let (word, rest) = s.split_at(leading_letters(s));
            Ok(Next::Token(word_token(place, word), rest))
        }
        Class::Digit => {
            let (digits, rest) = s.split_at(leading_digits(s));
            let value = value_of(digits).ok_or(Reason::NumberTooLarge.at(place))?;
            Ok(Next::Token(Token::Number(place, value), rest))
        }
        Class::Other => {
            if let Some(body) = after_opening(s) {
                let rest = after_comment(body).ok_or(Reason::UnclosedComment.at(place))?;
                return Ok(Next::Gap(rest));
            }
            let (mark, rest) = symbol(s).ok_or(Reason::UnexpectedByte.at(place))?;
            Ok(Next::Token(Token::Mark(place, mark), rest))
        }
    }
}
