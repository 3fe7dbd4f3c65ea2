//! The words of a text, and what the lines of scripts and the entries of journals have in common: numbers, tables of
//! words, fields and messages.
#![tactic(auto)]

pub mod fields;
pub mod forms;
pub mod numbers;
pub mod tables;
pub mod words;
