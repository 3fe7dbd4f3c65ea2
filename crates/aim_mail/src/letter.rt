//! What is said to the server.
use aim_layout::Layout;
use aim_requests::Prepared;

/// What no call changes of a mailbox.
#[derive(Drop)]
pub struct MailSetting {
    pub layout: Layout,
    pub vehicles: u32,
    pub room: u32,
}

/// What is said to the server.
#[derive(Drop)]
pub enum Word {
    /// The setting. It is the first word, which opening sends and receives.
    Opening(MailSetting),
    /// A call.
    Call { moment: u32, prepared: Prepared },
    /// A client's last word.
    Last,
}

/// A word with the number of the vehicle whose client says it.
#[derive(Drop)]
pub struct Letter {
    pub from: u32,
    pub word: Word,
}
