//! What a tree spells: tokens, each with what it must be.

/// A token's number, and what the tree wants it to be.
#[derive(Clone, Copy, Debug, PartialEq, Eq)]
pub struct Symbol {
    pub token: u32,
    pub want: Want,
}

/// What a token must be.
#[derive(Clone, Copy, Debug, PartialEq, Eq)]
pub enum Want {
    /// An identifier (C11 6.4.2).
    Word,
    /// A number (6.4.4).
    Number,
    /// A character constant (6.4.4.4).
    Char,
    /// A string literal (6.4.5).
    Text,
    /// The keyword of this number (6.4.1).
    Key(u8),
    /// The punctuator of this number (6.4.6).
    Mark(u8),
    /// One of the tokens that may stand in the slot.
    Among(Slot),
}

/// A point of the grammar where one of several spellings may stand.
#[derive(Clone, Copy, Debug, PartialEq, Eq)]
pub enum Slot {
    /// A storage-class specifier (6.7.1).
    Storage,
    /// A function specifier (6.7.4).
    Function,
    /// A type qualifier (6.7.3).
    Qualifier,
    /// A type specifier of one keyword (6.7.2).
    Basic,
    /// `struct` or `union` (6.7.2.1).
    RecordKey,
    /// `static` or a type qualifier between the brackets of an array (6.7.6.2).
    ArrayWord,
    /// An assignment operator (6.5.16).
    AssignOp,
    /// A binary operator (6.5.5 to 6.5.14).
    BinaryOp,
    /// A unary operator before its operand (6.5.3).
    PrefixOp,
    /// `++` or `--` after its operand (6.5.2.4).
    Step,
    /// `sizeof` or `_Alignof` before a type name (6.5.3.4).
    SizeKey,
    /// A number, a character constant or a string literal (6.5.1).
    Literal,
}
