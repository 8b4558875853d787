//! The tree of a translation unit (C11 6.5 to 6.9).
//!
//! A number `u32` is the number of a token. `marks` are the tokens of brackets, separators and
//! keywords that the form fixes and that no other field holds, in the order of the source; a form
//! without such tokens has no marks. What is large and rare is boxed, so that an operand is small.

use joern_io::{Boxed, List};

/// A translation unit (6.9).
#[derive(Drop)]
pub struct Unit {
    pub items: List<Item>,
}

/// An external declaration (6.9).
#[derive(Drop)]
pub enum Item {
    /// A function definition (6.9.1).
    Define {
        specs: Specs,
        declarator: Declarator,
        body: Block,
    },
    /// A declaration (6.9.2).
    Declare(Declaration),
}

/// A declaration (6.7).
#[cycle(tree)]
#[derive(Drop)]
pub enum Declaration {
    /// Declarators of one list of specifiers. Its marks are the commas and `;`.
    Names {
        specs: Specs,
        list: List<InitDeclarator>,
        marks: List<u32>,
    },
    /// A static assertion (6.7.10). Its marks are `_Static_assert`, `(`, `,`, `)` and `;`.
    Assert {
        cond: Expr,
        text: List<u32>,
        marks: List<u32>,
    },
}

/// A declarator with its initialiser, if any (6.7). Its mark is `=`, where there is one.
#[cycle(tree)]
#[derive(Drop)]
pub struct InitDeclarator {
    pub declarator: Declarator,
    pub init: Option<Init>,
    pub marks: List<u32>,
}

/// An initialiser (6.7.9).
#[cycle(tree)]
#[derive(Drop)]
pub enum Init {
    /// One value.
    Value(Expr),
    /// A list. Its marks are `{`, the commas, of which one may end the list, and `}`.
    Items(List<InitItem>, List<u32>),
}

/// An item of an initialiser list (6.7.9). Its mark is `=`, where there are designators.
#[cycle(tree)]
#[derive(Drop)]
pub struct InitItem {
    pub designators: List<Designator>,
    pub init: Init,
    pub marks: List<u32>,
}

/// A designator (6.7.9).
#[cycle(tree)]
#[derive(Drop)]
pub enum Designator {
    /// An element of an array. Its marks are `[` and `]`.
    Index(Expr, List<u32>),
    /// A member. Its mark is `.`.
    Field(u32, List<u32>),
}

/// Declaration specifiers (6.7).
#[cycle(tree)]
#[derive(Drop)]
pub struct Specs {
    pub words: List<Spec>,
}

/// A declaration specifier.
#[cycle(tree)]
#[derive(Drop)]
pub enum Spec {
    /// A storage-class specifier (6.7.1).
    Storage(u32),
    /// A function specifier (6.7.4).
    Function(u32),
    /// A type qualifier (6.7.3).
    Qualifier(u32),
    /// A type specifier of one keyword (6.7.2).
    Basic(u32),
    /// A typedef name (6.7.8).
    Named(u32),
    /// An atomic type (6.7.2.4). Its marks are `_Atomic`, `(` and `)`.
    Atomic(Boxed<TypeName>, List<u32>),
    /// An alignment like that of a type (6.7.5). Its marks are `_Alignas`, `(` and `)`.
    AlignType(Boxed<TypeName>, List<u32>),
    /// An alignment (6.7.5). Its marks are `_Alignas`, `(` and `)`.
    AlignExpr(Expr, List<u32>),
    /// A structure or union (6.7.2.1). Its marks are `{` and `}`, where it has a body.
    Record {
        key: u32,
        tag: Option<u32>,
        body: Option<List<Declaration>>,
        marks: List<u32>,
    },
    /// An enumeration (6.7.2.2). Its marks are `{`, the commas, of which one may end the list, and
    /// `}`, where it has a body.
    Enumeration {
        key: u32,
        tag: Option<u32>,
        body: Option<List<Enumerator>>,
        marks: List<u32>,
    },
}

/// An enumerator (6.7.2.2). Its mark is `=`, where it has a value.
#[cycle(tree)]
#[derive(Drop)]
pub struct Enumerator {
    pub name: u32,
    pub value: Option<Expr>,
    pub marks: List<u32>,
}

/// A declarator (6.7.6), or that of a member (6.7.2.1) or of a type name (6.7.7). Its mark is `:`,
/// where it has a width.
#[cycle(tree)]
#[derive(Drop)]
pub struct Declarator {
    pub pointers: List<Pointer>,
    pub core: Core,
    pub suffixes: List<Suffix>,
    pub width: Option<Boxed<Expr>>,
    pub marks: List<u32>,
}

/// A pointer (6.7.6.1).
#[derive(Drop)]
pub struct Pointer {
    pub star: u32,
    pub qualifiers: List<u32>,
}

/// What stands in the middle of a declarator (6.7.6).
#[cycle(tree)]
#[derive(Drop)]
pub enum Core {
    /// The name that is declared.
    Name(u32),
    /// A declarator in parentheses. Its marks are `(` and `)`.
    Group(Boxed<Declarator>, List<u32>),
    /// Nothing, as in an abstract declarator (6.7.7).
    Empty,
}

/// What follows the middle of a declarator (6.7.6).
#[cycle(tree)]
#[derive(Drop)]
pub enum Suffix {
    /// The size of an array (6.7.6.2). Its marks are `[` and `]`.
    Array {
        words: List<u32>,
        size: Option<Expr>,
        star: Option<u32>,
        marks: List<u32>,
    },
    /// A parameter list (6.7.6.3). Its marks are `(`, the commas and `)`.
    Params {
        list: List<Param>,
        dots: Option<u32>,
        marks: List<u32>,
    },
}

/// A parameter (6.7.6.3).
#[cycle(tree)]
#[derive(Drop)]
pub struct Param {
    pub specs: Specs,
    pub declarator: Declarator,
}

/// A type name (6.7.7).
#[cycle(tree)]
#[derive(Drop)]
pub struct TypeName {
    pub specs: Specs,
    pub declarator: Declarator,
}

/// An expression (6.5.17). Its marks are the commas.
#[cycle(tree)]
#[derive(Drop)]
pub struct Expr {
    pub parts: List<Assign>,
    pub marks: List<u32>,
}

/// An assignment expression (6.5.16): each target with its operator, and then the value.
#[cycle(tree)]
#[derive(Drop)]
pub struct Assign {
    pub targets: List<(Prefixed, u32)>,
    pub value: Cond,
}

/// A conditional expression (6.5.15).
#[cycle(tree)]
#[derive(Drop)]
pub struct Cond {
    pub arms: List<Arm>,
    pub last: Binary,
}

/// A condition and what is taken where it holds (6.5.15). Its marks are `?` and `:`.
#[cycle(tree)]
#[derive(Drop)]
pub struct Arm {
    pub test: Binary,
    pub then: Expr,
    pub marks: List<u32>,
}

/// Operands joined by binary operators (6.5.5 to 6.5.14). They are grouped by precedence, and to
/// the left.
#[cycle(tree)]
#[derive(Drop)]
pub struct Binary {
    pub first: Prefixed,
    /// Each operator with the operand after it.
    pub rest: List<(u32, Prefixed)>,
}

/// A unary or cast expression (6.5.3, 6.5.4).
#[cycle(tree)]
#[derive(Drop)]
pub struct Prefixed {
    pub prefixes: List<Prefix>,
    pub base: Base,
}

/// What stands before an operand.
#[cycle(tree)]
#[derive(Drop)]
pub enum Prefix {
    /// A unary operator, `sizeof` before an expression among them (6.5.3).
    Op(u32),
    /// A cast (6.5.4). Its marks are `(` and `)`.
    Cast(Boxed<TypeName>, List<u32>),
}

/// A postfix expression (6.5.2).
#[cycle(tree)]
#[derive(Drop)]
pub struct Base {
    pub form: BaseForm,
    pub suffixes: List<Post>,
}

/// What suffixes are applied to.
#[cycle(tree)]
#[derive(Drop)]
pub enum BaseForm {
    /// An identifier (6.5.1).
    Name(u32),
    /// A constant or a string literal (6.5.1). Adjacent string literals are one (6.4.5).
    Literal(List<u32>),
    /// An expression in parentheses (6.5.1). Its marks are `(` and `)`.
    Group(Boxed<Expr>, List<u32>),
    /// A compound literal (6.5.2.5). Its marks are `(`, `)`, `{`, the commas, of which one may end
    /// the list, and `}`.
    Compound(Boxed<TypeName>, List<InitItem>, List<u32>),
    /// `sizeof` or `_Alignof` with a type name (6.5.3.4). Its marks are `(` and `)`.
    SizeType(u32, Boxed<TypeName>, List<u32>),
}

/// A suffix of an operand (6.5.2).
#[cycle(tree)]
#[derive(Drop)]
pub enum Post {
    /// A subscript (6.5.2.1). Its marks are `[` and `]`.
    Index(Expr, List<u32>),
    /// The arguments of a call (6.5.2.2). Its marks are `(`, the commas and `)`.
    Call(List<Assign>, List<u32>),
    /// A member (6.5.2.3). Its mark is `.`.
    Dot(u32, List<u32>),
    /// A member of what is pointed to (6.5.2.3). Its mark is `->`.
    Arrow(u32, List<u32>),
    /// `++` or `--` (6.5.2.4).
    Step(u32),
}

/// A compound statement (6.8.2). Its marks are `{` and `}`.
#[cycle(stmt)]
#[derive(Drop)]
pub struct Block {
    pub items: List<BlockItem>,
    pub marks: List<u32>,
}

/// A block item (6.8.2).
#[cycle(stmt)]
#[derive(Drop)]
pub enum BlockItem {
    /// A declaration.
    Declare(Declaration),
    /// A statement.
    Do(Stmt),
}

/// A statement (6.8).
#[cycle(stmt)]
#[derive(Drop)]
pub struct Stmt {
    pub labels: List<Mark>,
    pub kind: StmtKind,
}

/// A label (6.8.1).
#[derive(Drop)]
pub enum Mark {
    /// A name. Its mark is `:`.
    Label(u32, List<u32>),
    /// A case. Its marks are `case` and `:`.
    Case(Expr, List<u32>),
    /// `default`, which is the number. Its mark is `:`.
    Default(u32, List<u32>),
}

/// A statement without its labels.
#[cycle(stmt)]
#[derive(Drop)]
pub enum StmtKind {
    /// A null statement (6.8.3). Its mark is `;`.
    Empty(List<u32>),
    /// An expression statement (6.8.3). Its mark is `;`.
    Value(Expr, List<u32>),
    /// A compound statement (6.8.2).
    Braced(Block),
    /// Conditions, each with what is done where it is the first that holds, and what is done where
    /// none does (6.8.4.1). Its marks are `if`, `(` and `)` of the first, `else`, `if`, `(` and `)`
    /// of each other, and the last `else`.
    If {
        arms: List<(Expr, Stmt)>,
        other: Option<Boxed<Stmt>>,
        marks: List<u32>,
    },
    /// A `while` loop (6.8.5.1). Its marks are `while`, `(` and `)`.
    While(Expr, Boxed<Stmt>, List<u32>),
    /// A `do` loop (6.8.5.2). Its marks are `do`, `while`, `(`, `)` and `;`.
    DoWhile(Boxed<Stmt>, Expr, List<u32>),
    /// A `for` loop (6.8.5.3). Its marks are `for`, `(`, the second `;` and `)`.
    For {
        init: Boxed<ForInit>,
        cond: Option<Boxed<Expr>>,
        step: Option<Boxed<Expr>>,
        body: Boxed<Stmt>,
        marks: List<u32>,
    },
    /// A `switch` (6.8.4.2). Its marks are `switch`, `(` and `)`.
    Switch(Expr, Boxed<Stmt>, List<u32>),
    /// A `break` (6.8.6.3). Its marks are `break` and `;`.
    Break(List<u32>),
    /// A `continue` (6.8.6.2). Its marks are `continue` and `;`.
    Continue(List<u32>),
    /// A `goto` (6.8.6.1). Its marks are `goto` and `;`.
    Goto(u32, List<u32>),
    /// A `return` (6.8.6.4). Its marks are `return` and `;`.
    Return(Option<Expr>, List<u32>),
}

/// What stands before the second part of a `for` (6.8.5.3).
#[derive(Drop)]
pub enum ForInit {
    /// Nothing. Its mark is `;`.
    Nothing(List<u32>),
    /// An expression. Its mark is `;`.
    Value(Expr, List<u32>),
    /// A declaration, which has its own `;`.
    Declare(Declaration),
}
