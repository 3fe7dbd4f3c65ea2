//! What a message says to its sender.

ghost use Rattle.std.specs.Prelude.{◌≡◌};
ghost use Rattle.aim_driver.specs.Bodies.{changed, active_sent, is_done, is_cancel, is_change};

use aim_messages::{Body, Message};

/// The message's CHANGE-REQUEST would change that reservation.
pub fn changed_by(latest: Option<Message>) -> Option<u32>
    ensures { result ≡ changed latest }
{
    match latest {
        Some(
            Message {
                body: Body::Change(id, _),
                ..
            },
        ) => Some(id),
        _ => None,
    }
}

/// On what the driver is active after it has sent a message.
pub fn active_after_sending(body: Body, active: Option<u32>) -> Option<u32>
    ensures { result ≡ active_sent body active }
{
    match body {
        Body::Request(_) => active,
        Body::Change(_, _) | Body::Cancel(_) | Body::Done(_) => None,
    }
}

/// Whether it is a DONE.
pub fn is_a_done(body: Body) -> bool
    ensures { result ≡ is_done body }
{
    matches!(body, Body::Done(_))
}

/// Whether it is a CANCEL.
pub fn is_a_cancel(body: Body) -> bool
    ensures { result ≡ is_cancel body }
{
    matches!(body, Body::Cancel(_))
}

/// Whether it is a CHANGE-REQUEST.
pub fn is_a_change(body: Body) -> bool
    ensures { result ≡ is_change body }
{
    matches!(body, Body::Change(_, _))
}
