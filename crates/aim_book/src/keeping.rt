//! What a fresh message and its answer change of the distance of a lane.

ghost use Rattle.std.specs.Prelude.{◌≡◌, length};
ghost use Rattle.aim_sessions.specs.Distances.{distances_with};
ghost use Rattle.aim_rules.specs.History.{params_of};

use crate::desks::Desk;
use aim_messages::{Body, Reason, Reply};
use aim_requests::params_in;
use aim_sessions::asked_from;
use std::sync::ledger::Ledger;

impl<L: Ledger> Desk<L> {
    /// Keeps what a fresh message and its answer make of the distance of the message's lane.
    pub(crate) fn keep_distance(&mut self, body: &Body, reply: &Reply)
        requires { length self.old.distances ≡ 16 }
        ensures distances { self.new.distances ≡ distances_with self.old.distances self.old.reservations.table.current reply.now (params_of body.now) }
        ensures rest { self.new ≡ record self.old { distances = self.new.distances } }
    {
        let now = self.reservations.now();
        let Some(params) = params_in(body) else {
            return;
        };
        if params.lane >= 16 {
            return;
        }
        match reply {
            Reply::Confirm { .. } => self.distances.confirmed(params.lane),
            Reply::Reject {
                reason: Reason::Green { .. } | Reason::Taken { .. },
                ..
            } => {
                self.distances
                    .refused(params.lane, asked_from(now, &params));
            }
            _ => {}
        }
    }
}
