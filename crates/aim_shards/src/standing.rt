//! The claims of a caller that stand.

ghost use Rattle.std.specs.Prelude.{◌≡◌, ◌<◌, List, filter, length, not, ◌==◌, vec_capacity};
ghost use Rattle.aim_shards.specs.Sets.{Quarters, chosen};
ghost use Rattle.aim_shards.specs.Claims.{claimed, freed, has_ticket, stood};

use crate::claims::{ClaimAct, ClaimEntry};

// Takes out the claim with the ticket.
fn free(standing: &mut Vec<ClaimEntry>, ticket: u32)
    ensures items { standing.new.items ≡ filter (λ f. not (f.ticket == ticket)) standing.old.items }
    ensures room { vec_capacity standing.new ≡ vec_capacity standing.old }
{
    standing.retain(|claim| claim.ticket != ticket);
}

/// The claims that stand after the entry.
pub(crate) fn stand(standing: &mut Vec<ClaimEntry>, entry: ClaimEntry)
    requires { length standing.old.items < vec_capacity standing.old }
    ensures items { standing.new.items ≡ stood standing.old.items entry }
    ensures room { vec_capacity standing.new ≡ vec_capacity standing.old }
{
    if entry.yes {
        match entry.act {
            ClaimAct::Claim(_) => standing.push_reserved(entry),
            ClaimAct::Free(ticket) => free(standing, ticket),
        }
    }
}

/// What is known of a ticket: whether it is one of the claims, and its set, if so.
#[derive(Clone, Copy)]
pub(crate) struct Known {
    pub own: bool,
    pub set: Option<u32>,
}

// The set that the act claims.
fn set_of(act: &ClaimAct) -> Option<u32>
    ensures { (sets : List Quarters) → chosen sets result ≡ claimed sets act.now }
{
    match act {
        ClaimAct::Claim(set) => Some(*set),
        ClaimAct::Free(_) => None,
    }
}

/// Looks for the claim with the ticket.
pub(crate) fn look_up(standing: &Vec<ClaimEntry>, ticket: u32) -> Known
    ensures own { result.own ≡ has_ticket ticket standing.now.items }
    ensures set { (sets : List Quarters) → chosen sets result.set ≡ freed sets ticket standing.now.items }
{
    for claim in standing {
        if claim.ticket == ticket {
            return Known {
                own: true,
                set: set_of(&claim.act),
            };
        }
    }
    Known {
        own: false,
        set: None,
    }
}
