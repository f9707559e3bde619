//! The text of a schema: its tokens, the value of its strings, and edits of it.
#![tactic(auto)]

mod class;
mod ending;
mod escape;
mod fault;
mod kind;
pub mod laws;
mod lexer;
mod scan;
mod source;
mod splice;
mod value;
mod word;

pub use fault::{LexFault, TextFault};
pub use kind::TokenKind;
pub use lexer::{Token, lex, lex_as};
pub use source::{Source, Span};
pub use splice::{Splice, SpliceFault, Splices, apply_splices, invert};
pub use value::{stands_for, string_value};
pub use word::is_word;
