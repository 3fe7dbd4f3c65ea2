//! What a reply says to the one that asked.

ghost use Rattle.std.specs.Prelude.{◌≡◌, ℕ, Some, if◌then◌else◌};
ghost use Rattle.aim_messages.specs.declared.replies.Reason.{Reason};
ghost use Rattle.aim_messages.specs.declared.replies.Reply.TheVariants as reply;
ghost use Rattle.aim_driver.specs.Replies.{is, active_told, is_emergency_stop, held, next_told, steps_for, lead_for, lead_told};

use aim_messages::{Reason, Reply};

/// Whether it is an EmergencyStop.
pub fn is_stop(reply: Reply) -> bool
    ensures { result ≡ is_emergency_stop reply }
{
    matches!(reply, Reply::EmergencyStop)
}

/// What the reply says is still held.
pub fn held_in(answer: Option<Reply>) -> Option<u32>
    ensures { result ≡ held answer }
{
    match answer {
        Some(Reply::Reject { held, .. }) => held,
        _ => None,
    }
}

fn if_changed(change: Option<u32>, id: u32, active: Option<u32>) -> Option<u32>
    ensures { result ≡ if is change id then Some id else active }
{
    match change {
        Some(changed) if changed == id => Some(id),
        _ => active,
    }
}

// A refusal that holds that, whatever its reason is.
fn active_after_refusal(change: Option<u32>, held: Option<u32>, active: Option<u32>) -> Option<u32>
    ensures { (why : Reason) (next : ℕ) → result ≡ active_told change (reply.Reject why next held) active }
{
    match held {
        Some(id) => if_changed(change, id, active),
        None => active,
    }
}

/// On what the driver is active after the answer to its latest message, which would change `change`.
pub fn active_after_answer(change: Option<u32>, reply: Reply, active: Option<u32>) -> Option<u32>
    ensures { result ≡ active_told change reply active }
{
    match reply {
        Reply::Confirm { id, .. } => Some(id),
        Reply::Reject { held, .. } => active_after_refusal(change, held, active),
        _ => active,
    }
}

/// The step before which the driver is not to ask, after an answer.
pub fn next_after_answer(reply: Reply, before: u32) -> u32
    ensures { result ≡ next_told reply before }
{
    match reply {
        Reply::Reject { next, .. } => next,
        _ => before,
    }
}

// In how many steps a vehicle of that speed comes a distance nearer, 65,536 at most.
fn step_count(distance: u64, speed: u32) -> u32
    ensures { result ≡ steps_for distance speed }
{
    if speed == 0 {
        return 65_536;
    }
    (distance / speed as u64).min(65_536) as u32
}

fn lead_after_reason(speed: u32, reason: Reason, before: u32) -> u32
    ensures { result ≡ lead_for speed reason before }
{
    match reason {
        Reason::Distance(distance) => before.min(step_count(distance, speed).max(1)),
        _ => before,
    }
}

/// In how many steps the driver asks to arrive, after an answer, where it has that speed.
pub fn lead_after_answer(speed: u32, reply: Reply, before: u32) -> u32
    ensures { result ≡ lead_told speed reply before }
{
    match reply {
        Reply::Reject { reason, .. } => lead_after_reason(speed, reason, before),
        _ => before,
    }
}
