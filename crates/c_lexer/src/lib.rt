//! The tokens of a preprocessed C file (C11 6.4).
#![tactic(auto)]

mod byte_class;
mod comment;
mod cursor;
mod directive;
mod error;
pub mod keyword;
pub mod laws;
mod lexer;
mod line;
mod literal;
pub mod mark;
mod marker;
mod number;
mod pair;
mod source_text;
mod token;
mod word;
mod word_table;

pub use error::LexStop;
pub use lexer::lex;
pub use marker::{Marker, marker_of};
pub use source_text::{MAX_FILE_BYTES, SourceText};
pub use token::{Kind, Token};
