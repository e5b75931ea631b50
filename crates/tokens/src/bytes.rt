ghost use Rattle.std.specs.Prelude.{◌≡◌, ◌≤◌, length};
ghost use Rattle.std.specs.List.{prefix_len};
ghost use Rattle.tokens.specs.Lexemes.{letter, digit};
ghost use Rattle.tokens.specs.Scanning.{class, Opening, FirstClosing, CommentEnd};

// What a byte can be part of.
#[derive(Clone, Copy, PartialEq, Eq, Debug)]
pub enum Class {
    Letter,
    Digit,
    White,
    Other,
}

pub fn class_of(byte: u8) -> Class
    ensures { result ≡ class byte }
{
    match byte {
        b'a'..=b'z' | b'A'..=b'Z' => Class::Letter,
        b'0'..=b'9' => Class::Digit,
        b' ' | b'\n' | b'\t' => Class::White,
        _ => Class::Other,
    }
}

// How many letters stand in front. Each test has its own chain: over a closure the clause would speak of its calls.
pub fn leading_letters(s: &[u8]) -> usize
    ensures value { result ≡ prefix_len letter s.now }
    ensures within { result ≤ length s.now }
{
    s.iter().take_while(|b| b.is_ascii_alphabetic()).count()
}

pub fn leading_digits(s: &[u8]) -> usize
    ensures value { result ≡ prefix_len digit s.now }
    ensures within { result ≤ length s.now }
{
    s.iter().take_while(|b| b.is_ascii_digit()).count()
}

// The bytes after the mark that opens a comment, if it stands in front.
pub fn after_opening(s: &[u8]) -> Option<&[u8]>
    ensures { Opening s.now result }
{
    match s {
        [b'/', b'*', rest @ ..] => Some(rest),
        _ => None,
    }
}

// Where the first mark that closes a comment stands.
fn closing_mark(s: &[u8]) -> Option<usize>
    ensures { FirstClosing s.now result }
{
    s.windows(2).position(|w| w == b"*/".as_slice())
}

// The bytes after the first mark that closes a comment.
pub fn after_comment(s: &[u8]) -> Option<&[u8]>
    ensures { CommentEnd s.now result }
{
    let mark = closing_mark(s)?;
    Some(&s[mark + 2..])
}
