//! Tests of the calls of texts, layouts, crossings, tables, policies, sessions and reservations.
#![tactic(auto)]

#[cfg(test)]
mod crossings;
#[cfg(test)]
mod entries;
#[cfg(test)]
mod inputs;
#[cfg(test)]
mod json;
#[cfg(test)]
mod layouts;
#[cfg(test)]
mod lines;
#[cfg(test)]
mod plain;
#[cfg(test)]
mod policies;
#[cfg(test)]
mod reservations;
#[cfg(test)]
mod shapes;
#[cfg(test)]
mod tables;
#[cfg(test)]
mod texts;
#[cfg(test)]
mod vehicles;
#[cfg(test)]
mod words;
