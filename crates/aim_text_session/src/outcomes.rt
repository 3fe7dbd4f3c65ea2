//! What a line of a session comes to.

ghost use Rattle.std.specs.Prelude.{◌≡◌};
ghost use Rattle.aim_text_session.specs.Sessions.{outcome_of};

use aim_line_session::{Answered, Untaken};
use aim_script::{Kind, Limit};

/// What a line comes to. Where it isn't taken, the session is as it was.
pub enum LineOutcome {
    /// It was taken, and made no entry.
    Taken,
    /// It was taken, and made this entry.
    Made(Answered),
    /// It is at fault.
    Bad(Kind),
    /// It goes past a limit.
    Limit(Limit),
    /// No position is left for a further entry; or it is an order, and no room is left for a further one.
    Full,
    /// Memory has run out: it may be tried again.
    NoMemory,
    /// `end` was taken before, so that no line is.
    Ended,
}

/// What a line comes to that an open session was given.
pub(crate) fn outcome_of(taken: Result<Option<Answered>, Untaken>) -> LineOutcome
    ensures { result ≡ outcome_of taken }
{
    match taken {
        Ok(None) => LineOutcome::Taken,
        Ok(Some(answered)) => LineOutcome::Made(answered),
        Err(Untaken::Bad(kind)) => LineOutcome::Bad(kind),
        Err(Untaken::Full) => LineOutcome::Full,
    }
}
