//! What a driver enters on, and the crossing that begins there.

ghost use Rattle.aim_driver.specs.Crossings.{first_entrance as entrance_of};
ghost use Rattle.std.specs.Prelude.{◌≡◌, ℕ, [], IfOk, None, Some, if◌then◌else◌, is_none, option_map};
ghost use Rattle.aim_rules.specs.Bad.{bad as bad_of};
ghost use Rattle.aim_rules.specs.History.{is_confirm};
ghost use Rattle.aim_rules.specs.Holds.{is_fast};
ghost use Rattle.aim_safety.specs.Occupied.{grant_of, is_tried as is_tried_of, params_in as params_of_entry, passage};
ghost use Rattle.aim_safety.specs.Begun.{grant_as, passage_as};

use crate::NoMemory;
use aim_driver::{Entrance, LogItem};
use aim_footprint::fields::{has_windows, is_fast_made};
use aim_layout::Layout;
use aim_messages::{Act, Body, Entry, Message, Params, Reply};
use aim_requests::{NeedsCells, bad_field, prepare};
use aim_sheets::{Pool, Sheet};
use std::alloc::Global;

/// What an entry grants: the params, and which trial.
#[derive(Clone, Copy)]
pub struct Grant {
    pub params: Params,
    pub fast: bool,
}

/// A crossing: the step at which it began, and what was granted for it.
#[derive(Clone, Copy)]
pub struct Passage {
    pub step: u32,
    pub grant: Grant,
}

/// Where the driver entered first.
pub fn entrance(log: &[LogItem]) -> Option<Entrance>
    ensures { result ≡ entrance_of log.now }
{
    for item in log {
        if let LogItem::Entered { step, id } = *item {
            return Some(Entrance { step, id });
        }
    }
    None
}

/// The params of a request or of a change.
pub fn params_in(entry: &Entry) -> Option<Params>
    ensures { result ≡ params_of_entry entry.now }
{
    match entry.act {
        Act::Message(
            Message {
                body: Body::Request(params) | Body::Change(_, params),
                ..
            },
        ) => Some(params),
        _ => None,
    }
}

/// Which trial a Confirm grants.
pub fn granted_trial(reply: &Reply) -> Option<bool>
    ensures { result ≡ (if is_confirm reply.now then Some (is_fast reply.now) else None) }
{
    match *reply {
        Reply::Confirm { accelerate, .. } => Some(accelerate),
        _ => None,
    }
}

// Whether no field of the params is wrong, where there are two empty sheets to prepare them in.
fn are_good_on(layout: &Layout, params: &Params, first: Sheet, second: Sheet) -> bool
    requires first { first ≡ record { spans = []; room = layout.now.grid.spans } }
    requires second { second ≡ record { spans = []; room = layout.now.grid.spans } }
    ensures { result ≡ is_none (bad_of layout.now params.now) }
{
    let message = Message {
        seq: 0,
        body: Body::Request(*params),
    };
    let prepared = prepare(layout, &message, first, second);
    prepared.bad().is_none()
}

// Whether no field of the params is wrong, by their cells.
fn are_good_by_cells(alloc: Global, layout: &Layout, params: &Params) -> Result<bool, NoMemory>
    ensures { IfOk result (λ good. good ≡ is_none (bad_of layout.now params.now)) }
{
    let mut pool = Pool::new(alloc, 2, layout.ground().grid().spans)?;
    let Ok(first) = pool.take() else {
        unreachable!();
    };
    let Ok(second) = pool.take() else {
        unreachable!();
    };
    Ok(are_good_on(layout, params, first, second))
}

/// Whether no field of the params is wrong.
pub fn are_good(alloc: Global, layout: &Layout, params: &Params) -> Result<bool, NoMemory>
    ensures { IfOk result (λ good. good ≡ is_none (bad_of layout.now params.now)) }
{
    match bad_field(layout, params) {
        Ok(field) => Ok(field.is_none()),
        Err(NeedsCells) => are_good_by_cells(alloc, layout, params),
    }
}

// Whether the trial is one that may be made with these params.
fn is_tried(layout: &Layout, params: &Params, fast: bool) -> bool
    ensures { result ≡ is_tried_of layout.now params.now fast }
{
    !has_windows(layout) || fast == is_fast_made(params)
}

/// What an entry grants, if its reply is a Confirm of params of which no field is wrong, and of a trial that may be made
/// with them.
pub fn granted(alloc: Global, layout: &Layout, entry: &Entry) -> Result<Option<Grant>, NoMemory>
    ensures { IfOk result (λ grant. option_map grant_as grant ≡ grant_of layout.now (Some entry.now)) }
{
    let (Some(params), Some(fast)) = (params_in(entry), granted_trial(&entry.reply)) else {
        return Ok(None);
    };
    if !is_tried(layout, &params, fast) {
        return Ok(None);
    }
    if are_good(alloc, layout, &params)? {
        Ok(Some(Grant { params, fast }))
    } else {
        Ok(None)
    }
}

/// The crossing that a driver makes: it begins where the driver entered first, on what the entry of that id grants.
pub fn begun(
    alloc: Global,
    layout: &Layout,
    journal: &[Entry],
    log: &[LogItem],
) -> Result<Option<Passage>, NoMemory>
    ensures { IfOk result (λ crossing. option_map passage_as crossing ≡ passage layout.now journal.now log.now) }
{
    let Some(entrance) = entrance(log) else {
        return Ok(None);
    };
    let Some(entry) = journal.get(entrance.id as usize) else {
        return Ok(None);
    };
    let step = entrance.step;
    match granted(alloc, layout, entry)? {
        Some(grant) => Ok(Some(Passage { step, grant })),
        None => Ok(None),
    }
}
