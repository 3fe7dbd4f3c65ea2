//! Tests of the calls of the turn, of drivers and agents, of whole drives and routes, and of the scripts that say them.
#![tactic(auto)]

#[cfg(test)]
mod agent;
#[cfg(test)]
mod claims;
#[cfg(test)]
mod drive;
#[cfg(test)]
mod driver;
#[cfg(test)]
mod driving;
#[cfg(test)]
mod events;
#[cfg(test)]
mod faults;
#[cfg(test)]
mod grid;
#[cfg(test)]
mod plans;
#[cfg(test)]
mod replay;
#[cfg(test)]
mod replies;
#[cfg(test)]
mod safety;
#[cfg(test)]
mod session;
#[cfg(test)]
mod sources;
#[cfg(test)]
mod turn;
#[cfg(test)]
mod watch;
