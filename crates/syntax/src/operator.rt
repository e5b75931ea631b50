ghost use Rattle.std.specs.Prelude.{◌≡◌};
ghost use Rattle.syntax.specs.Operators.{level_of};

#[derive(Clone, Copy, PartialEq, Eq, Debug)]
pub enum Operator {
    Add,
    Sub,
    Mul,
    Div,
    Less,
    AtMost,
    Greater,
    AtLeast,
    Equal,
    NotEqual,
}

// How tightly operators bind, from the loosest.
#[derive(Clone, Copy, PartialEq, Eq, Debug)]
pub enum Level {
    Relation,
    Sum,
    Product,
}

impl Operator {
    pub fn level(self) -> Level
        ensures { result ≡ level_of self }
    {
        match self {
            Operator::Add | Operator::Sub => Level::Sum,
            Operator::Mul | Operator::Div => Level::Product,
            Operator::Less
            | Operator::AtMost
            | Operator::Greater
            | Operator::AtLeast
            | Operator::Equal
            | Operator::NotEqual => Level::Relation,
        }
    }
}
