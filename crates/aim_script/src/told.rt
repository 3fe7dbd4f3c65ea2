//! What is told of a script by the kinds and the limits of all scripts.

ghost use Rattle.std.specs.Prelude.{◌≡◌};
ghost use Rattle.aim_script.specs.Told.{kind_told, limit_told};

use crate::decisions::{Kind, Limit};
use aim_script_reading::{Bound, Why};

/// The kind of a line at fault.
pub fn kind_told(why: Why<Kind>) -> Kind
    ensures { result ≡ kind_told why }
{
    match why {
        Why::Long => Kind::Long,
        Why::End => Kind::End,
        Why::Fault(kind) => kind,
    }
}

/// What the input goes past.
pub fn limit_told(bound: Bound<Limit>) -> Limit
    ensures { result ≡ limit_told bound }
{
    match bound {
        Bound::Bytes => Limit::Bytes,
        Bound::Lines => Limit::Lines,
        Bound::Further(limit) => limit,
    }
}
