//! Tests of the calls of shards, of the book, of the manager that threads share, and of the mailbox.
#![tactic(auto)]

#[cfg(test)]
mod asked;
#[cfg(test)]
mod book;
#[cfg(test)]
mod mailbox;
#[cfg(test)]
mod manager;
#[cfg(test)]
mod policies;
#[cfg(test)]
mod shards;
#[cfg(test)]
mod threads;
