ghost use Rattle.std.specs.Prelude.{◌≡◌, ◌↔◌, IsTrue};

// A keyword or a symbol.
#[derive(Clone, Copy, PartialEq, Eq, Debug)]
pub enum Mark {
    Else,
    If,
    Int,
    Return,
    Void,
    While,
    Plus,
    Minus,
    Star,
    Slash,
    Less,
    LessEqual,
    Greater,
    GreaterEqual,
    Equal,
    NotEqual,
    Assign,
    Semicolon,
    Comma,
    LeftParen,
    RightParen,
    LeftBracket,
    RightBracket,
    LeftBrace,
    RightBrace,
}

// A token with its place, the number of bytes before it. A name borrows its bytes from the source.
#[derive(Clone, Copy, PartialEq, Eq, Debug)]
pub enum Token<'a> {
    Mark(usize, Mark),
    Number(usize, u32),
    Name(usize, &'a [u8]),
}

impl Mark {
    pub fn is(self, other: Mark) -> bool
        ensures { IsTrue result ↔ (self ≡ other) }
    {
        self == other
    }
}
