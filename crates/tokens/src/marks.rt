ghost use Rattle.std.specs.Prelude.{[], ◌∷◌};
ghost use Rattle.tokens.specs.Scanning.{singles, keywords, Spelt, Symbol};

use crate::token::Mark;

// The symbol of one byte.
fn single_symbol(byte: u8) -> Option<Mark>
    ensures { Spelt singles (byte ∷ []) result }
{
    match byte {
        b'+' => Some(Mark::Plus),
        b'-' => Some(Mark::Minus),
        b'*' => Some(Mark::Star),
        b'/' => Some(Mark::Slash),
        b'<' => Some(Mark::Less),
        b'>' => Some(Mark::Greater),
        b'=' => Some(Mark::Assign),
        b';' => Some(Mark::Semicolon),
        b',' => Some(Mark::Comma),
        b'(' => Some(Mark::LeftParen),
        b')' => Some(Mark::RightParen),
        b'[' => Some(Mark::LeftBracket),
        b']' => Some(Mark::RightBracket),
        b'{' => Some(Mark::LeftBrace),
        b'}' => Some(Mark::RightBrace),
        _ => None,
    }
}

// The symbol in front, and the bytes after it.
pub fn symbol(s: &[u8]) -> Option<(Mark, &[u8])>
    ensures { Symbol s.now result }
{
    match s {
        [b'<', b'=', rest @ ..] => Some((Mark::LessEqual, rest)),
        [b'>', b'=', rest @ ..] => Some((Mark::GreaterEqual, rest)),
        [b'=', b'=', rest @ ..] => Some((Mark::Equal, rest)),
        [b'!', b'=', rest @ ..] => Some((Mark::NotEqual, rest)),
        [first, rest @ ..] => Some((single_symbol(*first)?, rest)),
        [] => None,
    }
}

pub fn keyword_of(word: &[u8]) -> Option<Mark>
    ensures { Spelt keywords word.now result }
{
    match word {
        b"else" => Some(Mark::Else),
        b"if" => Some(Mark::If),
        b"int" => Some(Mark::Int),
        b"return" => Some(Mark::Return),
        b"void" => Some(Mark::Void),
        b"while" => Some(Mark::While),
        _ => None,
    }
}
