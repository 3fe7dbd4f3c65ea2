//! Why there is no whole script.

ghost use Rattle.std.specs.Prelude.{◌≡◌};
ghost use Rattle.aim_grid_script.specs.Endings.{ending_of};
ghost use Rattle.aim_grid_script.specs.Verdicts.{kind_told};

use crate::decisions::GridKind;
use aim_script::{Kind, Limit, limit_told};
use aim_script_reading::{Refused, Why};

/// Why there are no routes.
#[derive(Clone, Copy)]
pub enum GridEnding {
    /// The line of this number, counted from 1, is the first at fault.
    Bad(u32, GridKind),
    /// The input goes past a limit.
    Limit(Limit),
    /// The source has failed.
    Read,
    /// Memory has run out.
    NoMemory,
}

// The kind of a line at fault.
fn kind_told(why: Why<GridKind>) -> GridKind
    ensures { result ≡ kind_told why }
{
    match why {
        Why::Long => GridKind::Plain(Kind::Long),
        Why::End => GridKind::Plain(Kind::End),
        Why::Fault(kind) => kind,
    }
}

/// What comes of a line or a limit that decides.
pub(crate) fn ending_of(refused: Refused<GridKind, Limit>) -> GridEnding
    ensures { result ≡ ending_of refused }
{
    match refused {
        Refused::Bad(number, why) => GridEnding::Bad(number, kind_told(why)),
        Refused::Limit(bound) => GridEnding::Limit(limit_told(bound)),
    }
}
