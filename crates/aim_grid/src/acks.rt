//! When a driver is through.

ghost use Rattle.std.specs.Prelude.{◌≡◌};
ghost use Rattle.aim_driver.specs.Logs.{is_above, counts_with};
ghost use Rattle.aim_grid.specs.Acked.{is_ack, is_leaving, acked_with, acked};
ghost use Rattle.aim_grid.specs.Told.{nothing, told_sent, told_got, told_by};

use aim_driver::LogItem;
use aim_messages::{Body, Message, Reply};

// What a log says of its latest message.
#[derive(Clone, Copy)]
pub(crate) struct Told {
    latest: Option<Message>,
    /// The answer to it, and the step at which that came.
    answer: Option<Reply>,
    at: Option<u32>,
}

// The number is above that of the latest message.
fn is_newer(seq: u32, latest: Option<Message>) -> bool
    ensures { result ≡ is_above seq latest }
{
    match latest {
        Some(message) => message.seq < seq,
        None => true,
    }
}

// A reply of that number is the answer to the latest message, which has none yet.
fn is_answer(latest: Option<Message>, answer: Option<Reply>, seq: u32) -> bool
    ensures { result ≡ counts_with latest answer seq }
{
    match latest {
        Some(message) => message.seq == seq && answer.is_none(),
        None => false,
    }
}

fn is_through(latest: Option<Message>) -> bool
    ensures { result ≡ is_leaving latest }
{
    match latest {
        Some(message) => matches!(message.body, Body::Done(_)),
        None => false,
    }
}

fn is_acked(answer: Option<Reply>) -> bool
    ensures { result ≡ is_ack answer }
{
    matches!(answer, Some(Reply::Ack { .. }))
}

impl Told {
    fn nothing() -> Told
        ensures { result ≡ nothing }
    {
        Told {
            latest: None,
            answer: None,
            at: None,
        }
    }

    fn after_sent(self, message: Message) -> Told
        ensures { result ≡ told_sent self message }
    {
        if is_newer(message.seq, self.latest) {
            Told {
                latest: Some(message),
                answer: None,
                at: None,
            }
        } else {
            self
        }
    }

    fn after_got(self, step: u32, seq: u32, reply: Reply) -> Told
        ensures { result ≡ told_got self step seq reply }
    {
        if is_answer(self.latest, self.answer, seq) {
            Told {
                latest: self.latest,
                answer: Some(reply),
                at: Some(step),
            }
        } else {
            self
        }
    }

    fn after(self, item: &LogItem) -> Told
        ensures { result ≡ told_by self item.now }
    {
        match *item {
            LogItem::Sent { message, .. } => self.after_sent(message),
            LogItem::Got { step, seq, reply } => self.after_got(step, seq, reply),
            LogItem::Entered { .. } => self,
        }
    }

    fn acked(self) -> Option<u32>
        ensures { result ≡ acked_with self.latest self.answer self.at }
    {
        if is_acked(self.answer) && is_through(self.latest) {
            self.at
        } else {
            None
        }
    }
}

/// The step at which the log's driver got the Ack that answers its DONE, if it got one.
pub fn acked_at(log: &[LogItem]) -> Option<u32>
    ensures { result ≡ acked log.now }
{
    let mut told = Told::nothing();
    for item in log {
        told = told.after(item);
    }
    told.acked()
}
