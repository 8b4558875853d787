//! The syntax tree of a C file, the tokens that a tree spells, and when it is well formed.
#![tactic(auto)]

mod forms;
pub mod laws;
mod open_declarations;
mod open_expressions;
mod open_statements;
mod part;
mod pending;
mod symbol;
mod tree;
mod walk;

pub use c_scopes::Scopes;
pub use forms::{list_of_one, two_marks};
pub use symbol::{Slot, Symbol, Want};
pub use tree::{
    Arm, Assign, Base, BaseForm, Binary, Block, BlockItem, Cond, Core, Declaration, Declarator,
    Designator, Enumerator, Expr, ForInit, Init, InitDeclarator, InitItem, Item, Mark, Param,
    Pointer, Post, Prefix, Prefixed, Spec, Specs, Stmt, StmtKind, Suffix, TypeName, Unit,
};
pub use walk::spell;
