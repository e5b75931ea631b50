#![tactic(auto)]

ghost use Rattle.std.specs.Prelude.{◌≡◌, min, length};
ghost use Rattle.position.specs.Lines.{line_ends, Before, After, Stands};

// Where a byte of a text stands for a reader: its line and column, counted from 1, and where its line begins and ends.
#[derive(Clone, Copy, PartialEq, Eq, Debug)]
pub struct Position {
    pub line: usize,
    pub column: usize,
    pub start: usize,
    pub end: usize,
}

#[tactic(auto, using(std::proofs::lemmas::List::Sums::count_by_more_yes, std::proofs::lemmas::List::Sums::count_by_more_no))]
fn newlines(text: &[u8]) -> usize
    ensures { result ≡ line_ends text.now }
{
    // `filter` and `count` take twice the time of this loop.
    let mut ends = 0;
    for byte in text {
        if *byte == b'\n' {
            ends += 1;
        }
    }
    ends
}

// Where the last line of a text begins.
fn last_start(front: &[u8]) -> usize
    ensures { Before front.now result }
{
    front.iter().rposition(|&b| b == b'\n').map_or(0, |i| i + 1)
}

// Where the first line of a text ends.
fn first_end(rest: &[u8]) -> usize
    ensures { After rest.now result }
{
    rest.iter().position(|&b| b == b'\n').unwrap_or(rest.len())
}

// The position of a place in a text; a place behind the text counts as its end.
pub fn locate(text: &[u8], place: usize) -> Position
    ensures { Stands text.now (min place (length text.now)) result }
{
    let (front, rest) = text.split_at(place.min(text.len()));
    let start = last_start(front);
    Position {
        line: 1 + newlines(front),
        column: front.len() - start + 1,
        start,
        end: front.len() + first_end(rest),
    }
}
