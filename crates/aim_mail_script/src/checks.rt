//! What is wrong with a line, and the limit on vehicles.

ghost use Rattle.std.specs.Prelude.{◌≡◌};
ghost use Rattle.aim_drive_script.specs.Kinds.{vehicles_limit};
ghost use Rattle.aim_mail_script.specs.Stages.{event_kind};

use aim_messages::LATEST_MOMENT;
use aim_script::{Kind, Limit};

// How many vehicles have a client.
const MOST_CLIENTS: u32 = 256;

// The most spans in the sheets of all vehicles, one sheet for each.
const MOST_SPANS: u64 = 16_777_216;

/// The limit that so many vehicles go past, where a vehicle's sheet has so many spans.
pub(crate) fn vehicles_limit(spans: u32, vehicles: u32) -> Option<Limit>
    ensures { result ≡ vehicles_limit spans vehicles }
{
    if vehicles > MOST_CLIENTS {
        Some(Limit::Vehicles)
    } else if u64::from(vehicles) * u64::from(spans) > MOST_SPANS {
        Some(Limit::Sheets)
    } else {
        None
    }
}

/// What is wrong with an event of a vehicle, where there are so many vehicles.
pub(crate) fn event_fault(vehicles: u32, vehicle: u32, moment: u32) -> Option<Kind>
    ensures { result ≡ event_kind vehicles vehicle moment }
{
    if vehicle >= vehicles {
        Some(Kind::Vehicle)
    } else if moment > LATEST_MOMENT {
        Some(Kind::Moment)
    } else {
        None
    }
}
