/// An operator with two operands that are both evaluated (ECMA-262 13.6 to 13.12).
#[derive(Clone, Copy, Debug, PartialEq, Eq)]
pub enum BinaryOp {
    /// `**`
    Power,
    /// `*`
    Multiply,
    /// `/`
    Divide,
    /// `%`
    Remainder,
    /// `+`
    Add,
    /// `-`
    Subtract,
    /// `<<`
    ShiftLeft,
    /// `>>`
    ShiftRight,
    /// `>>>`
    ShiftRightUnsigned,
    /// `<`
    Less,
    /// `>`
    Greater,
    /// `<=`
    LessOrEqual,
    /// `>=`
    GreaterOrEqual,
    /// `instanceof`
    InstanceOf,
    /// `in`
    In,
    /// `==`
    Equal,
    /// `!=`
    NotEqual,
    /// `===`
    StrictEqual,
    /// `!==`
    StrictNotEqual,
    /// `&`
    And,
    /// `^`
    Xor,
    /// `|`
    Or,
}

/// An operator whose right operand is evaluated where the left one does not decide (ECMA-262 13.13).
#[derive(Clone, Copy, Debug, PartialEq, Eq)]
pub enum LogicalOp {
    /// `&&`
    And,
    /// `||`
    Or,
    /// `??`
    Coalesce,
}

/// An operator of assignment (ECMA-262 13.15).
#[derive(Clone, Copy, Debug, PartialEq, Eq)]
pub enum AssignOp {
    /// `=`
    Plain,
    /// An operator and `=`, as `+=`.
    Compound(BinaryOp),
    /// A logical operator and `=`, as `&&=`.
    Logical(LogicalOp),
}

/// An operator before its operand (ECMA-262 13.5).
#[derive(Clone, Copy, Debug, PartialEq, Eq)]
pub enum UnaryOp {
    /// `delete`
    Delete,
    /// `void`
    Void,
    /// `typeof`
    Typeof,
    /// `+`
    Plus,
    /// `-`
    Minus,
    /// `~`
    BitNot,
    /// `!`
    Not,
}

/// `++` or `--`, before or after its operand (ECMA-262 13.4).
#[derive(Clone, Copy, Debug, PartialEq, Eq)]
pub enum UpdateOp {
    /// `++` before it
    PreIncrement,
    /// `--` before it
    PreDecrement,
    /// `++` after it
    PostIncrement,
    /// `--` after it
    PostDecrement,
}

/// How a property or a call is linked to what stands before it (ECMA-262 13.3).
#[derive(Clone, Copy, Debug, PartialEq, Eq)]
pub enum Link {
    /// Plainly.
    Plain,
    /// By `?.`, which begins or goes on with an optional chain.
    Optional,
    /// Plainly, within an optional chain: it is left out where the chain ends before it.
    Chained,
}
