use crate::node::TypeName;

// Where the cells of a variable begin: at a cell of their own, or so many cells into the frame of the call.
#[derive(Clone, Copy, PartialEq, Eq, Debug)]
pub enum Home {
    Global(usize),
    Local(usize),
}

// What a name means to the translator. An array has its size. An array parameter is handed in two cells of the frame, which hold
// the array's first cell and its size; a function has its number among the functions.
#[derive(Clone, Copy, PartialEq, Eq, Debug)]
pub enum Spot {
    Number(Home),
    Array(Home, u32),
    Handed(usize),
    Input,
    Output,
    Function(TypeName, usize),
}

// What the name at a place means, if it is in force.
#[derive(Clone, Copy, PartialEq, Eq, Debug)]
pub struct Meant {
    pub place: usize,
    pub spot: Option<Spot>,
}
