// The parts of a composable: expressions, statements and functions. Each part has its offset in the source text.

use rt_values::{ObjectNo, Ty, Value, Word};

/// An identifier with its offset in the source text: the name of a state, a function, a variable, a node's kind or an
/// attribute.
#[derive(Drop)]
pub struct Ident {
    pub at: usize,
    pub text: Word,
}

/// An operator of expressions. No operator fails, whatever the types of its operands. The operators are this
/// project's own and represent what a composable computes in Kotlin.
#[derive(Clone, Copy, Debug, PartialEq, Eq)]
pub enum Operator {
    /// `+`: the sum of two numbers, wrapped to 64 bits.
    Add,
    /// `-`: the difference of two numbers, wrapped to 64 bits.
    Subtract,
    /// `*`: the product of two numbers, wrapped to 64 bits.
    Multiply,
    /// `/`: the quotient of two numbers, rounded towards 0, or 0 for the divisor 0.
    Divide,
    /// `%`: the remainder of two numbers with the sign of the first, or 0 for the divisor 0.
    Remainder,
    /// `=`: whether two values are equal (`structuralEqualityPolicy`).
    Equal,
    /// `<`: whether the first number is less.
    Less,
    /// `not`: the opposite truth value.
    Not,
    /// `and`: whether both are true; both are evaluated.
    And,
    /// `or`: whether at least one is true; both are evaluated.
    Or,
    /// `pick`: the second operand if the first is true, else the third. The remaining operand is not evaluated.
    Pick,
    /// `join`: two texts in sequence, cut to as many whole characters as a text can have.
    Join,
    /// `text`: the printed form of a number or a truth value.
    Text,
    /// `ints`: the list of the numbers.
    Ints,
    /// `range`: the numbers from the first to before the second, as many as a list can have.
    Range,
    /// `push`: a list with a number appended, or the list itself if it is full.
    Push,
    /// `concat`: two lists in sequence, cut to as many items as a list can have.
    Concat,
    /// `len`: the number of items of a list.
    Length,
    /// `at`: the item of a list at an index, or 0 if there is no such index.
    At,
}

/// What the name in a `get` stands for.
#[derive(Clone, Copy, Debug, PartialEq, Eq)]
pub enum Source {
    /// The first state with the name, by its number, or the number of states if no state has the name.
    State(ObjectNo),
}

/// An expression.
#[derive(Drop)]
pub enum Expression {
    /// A constant.
    Literal {
        at: usize,
        value: Value,
    },
    /// The value of a variable.
    Variable {
        name: Ident,
    },
    /// The value of a state object, which counts as a read of it (`State.value`).
    Get {
        at: usize,
        name: Ident,
        source: Source,
    },
    /// The result of an operator. All operands are evaluated, from left to right, except for `Operator::Pick`.
    Apply {
        at: usize,
        operator: Operator,
        operands: Vec<Expression>,
    },
}

/// A name with an expression: an attribute of a node, or a key of a `remember`.
#[derive(Drop)]
pub struct Named {
    pub name: Ident,
    pub value: Expression,
}

/// The head of a block: what a statement with a body evaluates before it, and which group or variable it makes.
#[derive(Drop)]
pub enum Head {
    /// A node of this kind with these attributes. The statements of the body make its children (`ComposeNode`).
    Node {
        kind: Ident,
        attributes: Vec<Named>,
    },
    /// A group with a key around the statements of the body (`key`).
    Key {
        key: Expression,
    },
    /// The statements of the body once for each number of a list, in order, with a variable of this value. A `for`
    /// makes no group.
    For {
        name: Ident,
        list: Expression,
    },
    /// The statements of the body with a variable of this value. A `let` makes no group.
    Let {
        name: Ident,
        value: Expression,
    },
    /// A cell that keeps a value as long as its keys are equal (`remember`), and after it the statements of the body
    /// with a variable of this value. The calculation of the value can use only the names of the keys.
    Remember {
        name: Ident,
        keys: Vec<Named>,
        value: Expression,
    },
}

/// A statement of a composable. Statements are numbered from 1 in source order over the whole program. This number is
/// the site of the groups that the statement makes, as the positional key that the compiler plugin gives.
#[derive(Drop)]
pub enum Statement {
    /// A call of a composable, whose body makes the children of its group (`startRestartGroup`). `function` is the
    /// index of an earlier function with this name, or the number of earlier functions if none of them has it.
    Call {
        at: usize,
        site: u32,
        name: Ident,
        function: usize,
        arguments: Vec<Expression>,
    },
    /// One of two lists of statements. An `if` makes no group.
    If {
        at: usize,
        site: u32,
        condition: Expression,
        then_branch: Vec<Statement>,
        else_branch: Vec<Statement>,
    },
    /// A head, and the statements that it governs.
    Block {
        at: usize,
        site: u32,
        head: Head,
        body: Vec<Statement>,
    },
}

/// A parameter of a composable.
#[derive(Drop)]
pub struct Parameter {
    pub name: Ident,
    pub ty: Ty,
}

/// A composable (a function marked `@Composable`). It calls only functions that are declared earlier in the program.
#[derive(Drop)]
pub struct Function {
    pub at: usize,
    pub name: Ident,
    pub parameters: Vec<Parameter>,
    pub body: Vec<Statement>,
}
