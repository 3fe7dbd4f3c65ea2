//! The one line of a script that isn't whole, and its status.

ghost use Rattle.std.specs.Prelude.{◌≡◌, ◌≤◌, ◌∷◌, [], codes, decimal, length, take};
ghost use Rattle.aim_messages.specs.Texts.{spaced};
ghost use Rattle.aim_script.specs.Decided.{printed};
ghost use Rattle.aim_grid_command.specs.Refusals.{refusal_text, status_of};

use aim_grid_script::{GridDecision, GridKind};
use aim_messages::Text;
use aim_script::{Decision, last_line};

// Puts the line of a fault that scripts of one crossing don't have at the front of `line`, and says how long it is.
fn bad_line(number: u32, kind: &[u8], line: &mut [u8; 400]) -> usize
    requires short { length kind.now ≤ 8 }
    ensures text { take result line.new ≡ printed (spaced (codes "bad" ∷ codes "line" ∷ decimal number ∷ kind.now ∷ [])) }
    ensures fits { result ≤ 400 }
{
    let mut text = Text::new();
    text.word(b"bad");
    text.word(b"line");
    text.number(number);
    text.word(kind);
    let len = text.give(line);
    line[len] = b'\n';
    len + 1
}

/// Puts the line of a script that isn't whole at the front of `line`, its byte 10 included, and says how long it is. A
/// whole one has none. Takes no memory.
pub(crate) fn refusal_line(decision: GridDecision, line: &mut [u8; 400]) -> usize
    ensures text { take result line.new ≡ refusal_text decision }
    ensures fits { result ≤ 400 }
{
    match decision {
        GridDecision::Bad(number, GridKind::Plain(kind)) => {
            last_line(Decision::Bad(number, kind), line)
        }
        GridDecision::Bad(number, GridKind::Crossing) => bad_line(number, b"crossing", line),
        GridDecision::Bad(number, GridKind::Route) => bad_line(number, b"route", line),
        GridDecision::Limit(limit) => last_line(Decision::Limit(limit), line),
        GridDecision::Whole => 0,
    }
}

/// The status of a script.
pub(crate) fn status_of(decision: GridDecision) -> u8
    ensures { result ≡ status_of decision }
{
    match decision {
        GridDecision::Bad(..) => 3,
        GridDecision::Limit(_) => 6,
        GridDecision::Whole => 0,
    }
}
