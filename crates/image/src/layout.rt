ghost use Rattle.std.specs.Prelude.{◌≡◌, ◌^◌, ◌<◌};
ghost use Rattle.image.specs.Layout.{layout};
ghost use Rattle.image.specs.Reading.{count_right};

// Every block has 512 bytes: a header, instructions, zeros and the check.
pub const BLOCK: usize = 512;

pub const HEADER: usize = 12;

pub const COVERED: usize = 510;

// The bytes of an instruction, the instructions of a full block, the most blocks of an image.
pub const WIDTH: usize = 8;

pub const CAPACITY: usize = 62;

pub const LIMIT: usize = 794;

// Which block of which image a block is.
#[derive(Clone, Copy, PartialEq, Eq)]
pub(crate) struct Label {
    pub(crate) number: u32,
    pub(crate) index: u16,
    pub(crate) blocks: u16,
}

impl Label {
    // The casts are proved to fit: `try_from` would add a refusal that never comes.
    pub(crate) fn new(number: u32, index: usize, blocks: usize) -> Label
        requires index { index < 2 ^ 16 }
        requires blocks { blocks < 2 ^ 16 }
        ensures { result ≡ record { number = number; index = index; blocks = blocks } }
    {
        Label {
            number,
            index: index as u16,
            blocks: blocks as u16,
        }
    }

    // Every block but the last is full.
    pub(crate) fn allows(self, count: u8) -> bool
        ensures { result ≡ count_right layout self.index self.blocks count }
    {
        let count = usize::from(count);
        if usize::from(self.index) + 1 < usize::from(self.blocks) {
            count == CAPACITY
        } else {
            (1..=CAPACITY).contains(&count)
        }
    }
}
