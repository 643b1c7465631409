//! The words of the program `books`.
#![tactic(auto)]

mod command_word;
mod found;
mod options;
mod requests;
mod words;

pub use words::{
    Command, DocumentFilter, DocumentKind, JOURNAL, LedgerFilter, PostFilter, Request,
    WordsRefused, read_words,
};
