//! Runs the callers of a script side by side.

ghost use Rattle.std.specs.Prelude.{◌≡◌, ◌<◌, ◌≤◌, List, [], length, map, All, IfOk};
ghost use Rattle.std.specs.Thread.{IsSync};
ghost use Rattle.aim_shards_command.specs.declared.lines.ShardLine.{ShardLine};
ghost use Rattle.aim_shards_command.specs.Kinds.{IsScript};
ghost use Rattle.aim_shards_command.specs.Said.{sets_of, terms_of};
ghost use Rattle.aim_shards.specs.Models.{ShardsModel};
ghost use Rattle.aim_shards_command.specs.Calling.{mark_in};
ghost use Rattle.aim_shards_command.specs.Running.{AreSheetsOf, HasCalled, HasDone, IsNew, IsOpened, IsReady, IsRun};

use crate::callers::{Caller, make_all, marks_of};
use crate::{MOST_CALLS, Script, ShardLine};
use aim_shards::{ClaimEntry, Hold, OpenedShards, ShardPass, Shards, history, sheets};
use aim_sheets::Sheet;
use std::alloc::{AllocError, Global};
use std::sync::Wait;
use std::thread::{self, Threads};

// A caller for each pass, in their order.
fn seated(alloc: Global, passes: Vec<ShardPass>) -> Result<Vec<Caller>, AllocError>
    requires { All (λ p. (p.mine ≡ []) × (p.calls ≤ 1024)) passes.items }
    ensures count { IfOk result (λ v. length v.items ≡ length passes.items) }
    ensures ready { (s : ShardsModel) → All (IsNew s) passes.items → IfOk result (λ v. All (IsReady s) v.items) }
{
    let mut callers = Vec::with_capacity(alloc, passes.len())?;
    for pass in passes {
        callers.push_reserved(Caller::new(alloc, pass)?);
    }
    Ok(callers)
}

// The passes of the callers, in their order.
fn passes_of(alloc: Global, callers: Vec<Caller>) -> Result<Vec<ShardPass>, AllocError>
    ensures count { IfOk result (λ v. length v.items ≡ length callers.items) }
    ensures done { (s : ShardsModel) (lines : List ShardLine) → All (HasCalled s lines) callers.items → IfOk result (λ v. All (HasDone s lines) v.items) }
{
    let mut passes = Vec::with_capacity(alloc, callers.len())?;
    for caller in callers {
        let Caller { pass, tickets: _ } = caller;
        passes.push_reserved(pass);
    }
    Ok(passes)
}

// Lets the callers make their calls: as many runs of neighbours as there are workers at most, side by side, and the
// callers of a run one after another.
fn side_by_side<R: Threads + Wait + Sync, H: Hold>(
    rt: &R,
    shards: &Shards,
    lines: &[ShardLine],
    marks: &[u8],
    callers: &mut [Caller],
    workers: u32,
    hold: &H,
)
    requires workers { 0 < workers }
    requires script { IsScript lines.now }
    requires sets { length shards.now.sets ≡ length (sets_of lines.now) }
    requires marks { marks.now ≡ map mark_in lines.now }
    requires ready { All (IsReady shards.now) callers.old }
    ensures count { length callers.new ≡ length callers.old }
    ensures called { All (HasCalled shards.now lines.now) callers.new }
{
    thread::for_each_mut(
        rt,
        callers,
        workers as usize,
        &|_place: usize, caller: &mut Caller|
            requires { IsSync R.row × IsScript lines.now × (length shards.now.sets ≡ length (sets_of lines.now)) × (marks.now ≡ map mark_in lines.now) × IsReady shards.now caller.old }
            ensures { HasCalled shards.entry.now lines.entry.now caller.new }
        { make_all(rt, shards, lines, marks, caller, hold) },
    );
}

// The sheets of the script's sets.
fn sheets_of(alloc: Global, script: &Script) -> Result<Vec<Sheet>, AllocError>
    requires some { 0 < length script.now }
    ensures { IfOk result (λ v. AreSheetsOf (terms_of script.now) (sets_of script.now) v.items) }
{
    let terms = script.terms();
    let rectangles = script.rectangles(alloc)?;
    sheets(alloc, terms.n, terms.horizon, &rectangles)
}

// Shards over the script's sets, with a pass for each caller.
fn open(alloc: Global, script: &Script) -> Result<OpenedShards, AllocError>
    requires some { 0 < length script.now }
    ensures { IfOk result (IsOpened script.now) }
{
    let terms = script.terms();
    let sets = sheets_of(alloc, script)?;
    match Shards::open(
        alloc,
        terms.n,
        terms.horizon,
        sets,
        terms.callers,
        MOST_CALLS,
    ) {
        Ok(opened) => Ok(opened),
        Err(_) => Err(AllocError),
    }
}

// Lets the callers of these passes make their calls, and gives the passes back, in their order.
fn called<R: Threads + Wait + Sync, H: Hold>(
    rt: &R,
    alloc: Global,
    shards: &Shards,
    lines: &[ShardLine],
    passes: Vec<ShardPass>,
    workers: u32,
    hold: &H,
) -> Result<Vec<ShardPass>, AllocError>
    requires workers { 0 < workers }
    requires script { IsScript lines.now }
    requires sets { length shards.now.sets ≡ length (sets_of lines.now) }
    requires new { All (IsNew shards.now) passes.items }
    ensures count { IfOk result (λ v. length v.items ≡ length passes.items) }
    ensures done { IfOk result (λ v. All (HasDone shards.now lines.now) v.items) }
{
    let marks = marks_of(alloc, lines)?;
    let mut callers = seated(alloc, passes)?;
    side_by_side(rt, shards, lines, &marks, &mut callers, workers, hold);
    passes_of(alloc, callers)
}

/// Lets the callers of a script make their calls, and gives the one history.
///
/// The callers are cut into runs of neighbours, as many as there are workers at most. The runs go side by side, in threads
/// where the machine gives them, and a run makes the calls of its callers, caller by caller, in the script's order.
pub fn run_script<R: Threads + Wait + Sync, H: Hold>(
    rt: &R,
    alloc: Global,
    script: &Script,
    workers: u32,
    hold: &H,
) -> Result<Vec<ClaimEntry>, AllocError>
    requires some { 0 < length script.now }
    requires workers { 0 < workers }
    ensures { IfOk result (λ v. IsRun script.now v.items) }
{
    let opened = open(alloc, script)?;
    let OpenedShards { shards, passes } = opened;
    match called(rt, alloc, &shards, script.lines(), passes, workers, hold) {
        Ok(passes) => history(alloc, shards, passes),
        Err(error) => {
            drop(shards);
            Err(error)
        }
    }
}
