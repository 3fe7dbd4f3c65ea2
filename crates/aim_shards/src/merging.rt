//! The merged history.

ghost use Rattle.std.specs.Prelude.{◌≡◌, ◌++◌, length, All, IfOk};
ghost use Rattle.aim_shards.specs.Closing.{AreMade};
ghost use Rattle.aim_shards.specs.History.{IsHistory};
ghost use Rattle.aim_shards.specs.Merging.{AreOne, IsMerge, IsRising};

use crate::calls::Shards;
use crate::claims::ClaimEntry;
use crate::closing::ClosedShards;
use crate::pass::ShardPass;
use std::alloc::{AllocError, Global};

// All entries of two lists, by rising tickets, each once.
fn merge_two(
    alloc: Global,
    left: &[ClaimEntry],
    right: &[ClaimEntry],
) -> Result<Vec<ClaimEntry>, AllocError>
    requires left { IsRising left.now }
    requires right { IsRising right.now }
    requires one { AreOne (left.now ++ right.now) }
    ensures { IfOk result (λ v. IsMerge (left.now ++ right.now) v.items) }
{
    let mut merged = Vec::with_capacity(alloc, left.len() + right.len())?;
    let mut i = 0;
    let mut j = 0;
    while i < left.len() && j < right.len() {
        let a = left[i];
        let b = right[j];
        if a.ticket < b.ticket {
            merged.push_reserved(a);
            i += 1;
        } else if b.ticket < a.ticket {
            merged.push_reserved(b);
            j += 1;
        } else {
            merged.push_reserved(a);
            i += 1;
            j += 1;
        }
    }
    merged.extend_from_slice(&left[i..])?;
    merged.extend_from_slice(&right[j..])?;
    Ok(merged)
}

/// All entries of the four lists, by rising tickets, each once.
pub fn merge(alloc: Global, closed: &ClosedShards) -> Result<Vec<ClaimEntry>, AllocError>
    requires first { IsRising closed.now.first.items }
    requires second { IsRising closed.now.second.items }
    requires third { IsRising closed.now.third.items }
    requires fourth { IsRising closed.now.fourth.items }
    requires one { AreOne ((closed.now.first.items ++ closed.now.second.items) ++ (closed.now.third.items ++ closed.now.fourth.items)) }
    ensures { IfOk result (λ v. IsMerge ((closed.now.first.items ++ closed.now.second.items) ++ (closed.now.third.items ++ closed.now.fourth.items)) v.items) }
{
    let upper = merge_two(alloc, &closed.first, &closed.second)?;
    let lower = merge_two(alloc, &closed.third, &closed.fourth)?;
    merge_two(alloc, &upper, &lower)
}

/// Ends the turns, and gives the one history.
///
/// It is a legal claim history with the tickets 0, 1, 2 and so on, in which each caller's entries are its pass's, and which
/// has no others.
pub fn history(
    alloc: Global,
    shards: Shards,
    passes: Vec<ShardPass>,
) -> Result<Vec<ClaimEntry>, AllocError>
    requires own { All (λ p. p.table ≡ shards.table) passes.items }
    requires all { length passes.items ≡ length shards.numbers }
    ensures history { IfOk result (λ v. IsHistory shards.sets v.items) }
    ensures made { IfOk result (λ v. AreMade shards.numbers passes.items v.items) }
{
    let closed = shards.close(passes);
    merge(alloc, &closed)
}
