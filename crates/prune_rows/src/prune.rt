ghost use Rattle.std.specs.Prelude.{◌≡◌, ◌↔◌, ◌⊎◌, ℕ, ◌*◌, ◌+◌, ◌^◌, ◌≤◌, true, false, length, take, Some, None, IfSome, IfNone, IfOk, OnOk, OnErr, IsSomeAnd};
ghost use Rattle.std.specs.Option.{ForSome};
ghost use Rattle.agg_outside.specs.Counts.{HasCause};
ghost use Rattle.row_epochs.specs.Errors.{IsWorn, NamesLimit};
ghost use Rattle.hot_keeper.specs.Pruning.{low_rows, does_prune, pruned, epoch_pruned};
ghost use Rattle.prune_rows.specs.Prunes.{after_prune, SameBetween};

use agg_outside::Keeper;
use hot_keeper::{Hot, Pruned};
use row_epochs::RowsError;
use std::alloc::Global;

/// Kills the first `limit` alive rows, in row order, of steps below `end`, where a step has `size` numbers,
/// and sets the floor to `end`; then removes the rows that were killed at `oldest` or before. An error of
/// the removal leaves the kills done.
///
/// While no view is open, calls with one `end` go over each row once together, those that are kept among
/// them, and over each killed row once more, however small `limit` is: a call reads on where the one before
/// stopped, and removals go over notes of the killed rows, for which the first one goes over all rows.
pub fn prune_some<K: Keeper>(
    alloc: Global,
    hot: &mut Hot<K>,
    end: u64,
    size: u64,
    oldest: u64,
    limit: usize,
) -> Result<Pruned, RowsError>
    requires end { end ≤ 4096 }
    requires size { size ≤ 2 ^ 32 }
    requires floor { ForSome hot.old.told (λ h. h.floor ≤ end) }
    ensures ok { IfSome hot.old.told
        (λ h. OnOk result (hot.new.told ≡ Some (after_prune (hot.old.epoch + 1) end size oldest limit h))) }
    ensures killed { IfSome hot.old.told
        (λ h. IfOk result (λ pruned. pruned.killed ≡ length (take limit (low_rows (end * size) h.rows)))) }
    ensures left { IfSome hot.old.told
        (λ h. IfOk result (λ pruned. (pruned.left ≡ 0) ↔ (length (low_rows (end * size) h.rows) ≤ limit))) }
    ensures epoch { IfSome hot.old.told
        (λ h. OnOk result (hot.new.epoch ≡ epoch_pruned hot.old.epoch (end * size) end limit h)) }
    // No view that is open at `oldest` or later changes, whatever is answered.
    ensures views { IfSome hot.old.told
        (λ h. IsSomeAnd hot.new.told (λ k. SameBetween oldest hot.old.epoch h.rows k.rows)) }
    ensures err { IfSome hot.old.told (λ h. OnErr result
        ((hot.new.told ≡ Some h) ⊎ (hot.new.told ≡ Some (pruned (hot.old.epoch + 1) (end * size) end limit h)))) }
    ensures silent { IfNone hot.old.told (hot.new.told ≡ None) }
    ensures limit { NamesLimit result }
    ensures worn { IsWorn result → (hot.old.epoch ≡ 2 ^ 62) × IfSome hot.old.told
        (λ h. does_prune (end * size) end limit h ≡ true) }
    ensures rises { hot.old.epoch ≡ 2 ^ 62 → IfSome hot.old.told
        (λ h. OnOk result (does_prune (end * size) end limit h ≡ false)) }
    ensures cause { HasCause RowsError.Keeper hot.old.faults hot.new.faults result }
{
    let pruned = hot.kill_below(alloc, end * size, end, limit)?;
    hot.purge(alloc, oldest)?;
    Ok(pruned)
}
