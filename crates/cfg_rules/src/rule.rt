//! The rules, by which construct each is of.

/// How control runs through a construct.
#[derive(Clone, Copy, Debug, PartialEq, Eq)]
pub enum Rule {
    /// A function with a body. In a block it is passed.
    Method,
    /// A name, a constant, a string literal.
    Primary,
    /// A declaration, a function without a body, the name of a type.
    Silent,
    /// A call, or an operation that evaluates all operands.
    Call,
    /// `&&` or `||`.
    ShortCircuit,
    /// `?:`.
    Conditional,
    /// `sizeof` or `_Alignof`.
    SizeOf,
    /// A block.
    Block,
    /// An `if`.
    If,
    /// A `while`.
    While,
    /// A `do`.
    Do,
    /// A `for` with a second part.
    For,
    /// A `for` without one.
    Endless,
    /// A `switch` without `default`.
    Switch,
    /// A `switch` with one.
    SwitchDefault,
    /// A statement behind a label, `case` or `default`.
    JumpTarget,
    /// A `goto`.
    Goto,
    /// A `break`.
    Break,
    /// A `continue`.
    Continue,
    /// A `return`.
    Return,
}
