use crate::operator::Operator;

// The type that a declaration names.
#[derive(Clone, Copy, PartialEq, Eq, Debug)]
pub enum TypeName {
    Int,
    Void,
}

// A name where it is written: the number of bytes before it, and its bytes.
#[derive(Clone, Copy, PartialEq, Eq, Debug)]
pub struct Name<'a> {
    pub place: usize,
    pub text: &'a [u8],
}

// A node of a rule's tree. The nodes of its parts stand at the indices that it holds, each below its own. A list is its first
// element and the list of those after it, or nothing. A `paren` is the place of a left parenthesis.
// Indices and not boxes: the libraries allocate nothing, and a tree stands in an array of fixed length. `Nothing` is a node too,
// since every index names one.
#[derive(Clone, Copy)]
pub enum Node<N> {
    Nothing,
    Literal {
        place: usize,
        value: u32,
    },
    Variable {
        name: N,
    },
    Element {
        name: N,
        index: usize,
    },
    Paren {
        paren: usize,
        inner: usize,
    },
    Binary {
        left: usize,
        operator: Operator,
        place: usize,
        right: usize,
    },
    Assign {
        name: N,
        value: usize,
    },
    AssignElement {
        name: N,
        index: usize,
        value: usize,
    },
    Call {
        name: N,
        paren: usize,
        arguments: usize,
    },
    Argument {
        value: usize,
        rest: usize,
    },
    Empty,
    Expression {
        value: usize,
    },
    Compound {
        block: usize,
    },
    If {
        paren: usize,
        test: usize,
        then: usize,
    },
    IfElse {
        paren: usize,
        test: usize,
        then: usize,
        otherwise: usize,
    },
    While {
        paren: usize,
        test: usize,
        body: usize,
    },
    Return {
        place: usize,
    },
    ReturnValue {
        place: usize,
        value: usize,
    },
    Statement {
        first: usize,
        rest: usize,
    },
    Block {
        variables: usize,
        statements: usize,
    },
    NumberLocal {
        type_name: TypeName,
        name: N,
        rest: usize,
    },
    ArrayLocal {
        type_name: TypeName,
        name: N,
        place: usize,
        size: u32,
        rest: usize,
    },
    NumberParam {
        type_name: TypeName,
        name: N,
        rest: usize,
    },
    ArrayParam {
        type_name: TypeName,
        name: N,
        rest: usize,
    },
    NumberGlobal {
        type_name: TypeName,
        name: N,
        rest: usize,
    },
    ArrayGlobal {
        type_name: TypeName,
        name: N,
        place: usize,
        size: u32,
        rest: usize,
    },
    Function {
        type_name: TypeName,
        name: N,
        paren: usize,
        params: usize,
        body: usize,
        rest: usize,
    },
}
