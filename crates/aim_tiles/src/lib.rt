//! The tiles that are taken in the steps to come.
//!
//! A table is a finite set of cells, each a step, a row and a column, over the steps from now on up to a
//! horizon. It is kept as a ring of pages, one for each step, of one word for each row with one bit for
//! each column.
#![tactic(auto)]

mod checks;
mod counted;
mod counters;
mod idle;
mod lanes;
mod marks;
mod pages;
mod searches;
mod tables;

pub use counters::Steps;
pub use idle::IdleTable;
pub use lanes::first_meeting;
pub use std::alloc::AllocError as NoMemory;
pub use tables::Table;
