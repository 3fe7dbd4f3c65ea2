//! A server that owns the book, and clients that hand it calls over a channel and wait for each answer.
#![tactic(auto)]

mod client;
mod letter;
mod mailbox;
mod post;
mod response;
mod server;
mod slip;
mod waits;

pub use aim_book::{Full, OpenFault};
pub use client::{Client, Ended};
pub use letter::{Letter, MailSetting, Word};
pub use mailbox::{Mailbox, OpenedMail};
pub use post::{Hand, Intake, MailNote, Port};
pub use response::Response;
pub use server::{Served, Server, settle};
pub use slip::{Inlet, Slate, Slip};
pub use waits::{pass_over, receive_until, send_until};
