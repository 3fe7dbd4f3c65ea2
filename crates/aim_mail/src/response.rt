//! What comes back of a call.
use crate::MailNote;
use aim_book::Full;
use aim_messages::Reply;
use aim_sheets::Pool;

/// What comes back of a call: the number of the vehicle, the answer, the sheets that the book gave back, how many it now
/// keeps for the vehicle, and a note of what the server had received.
#[derive(Drop)]
pub struct Response {
    pub to: u32,
    pub answer: Result<Reply, Full>,
    pub sheets: Pool,
    pub kept: u32,
    pub note: MailNote,
}
