ghost use Rattle.std.specs.Prelude.{◌≡◌, ◌↔◌, ℕ, ◌+◌, ◌^◌, ◌≤◌, List, length, take, All, Some, None, IfSome, IfNone, IfOk, OnOk, OnErr, IsSomeAnd};
ghost use Rattle.std.specs.Option.{ForSome};
ghost use Rattle.agg_outside.specs.Counts.{HasCause};
ghost use Rattle.agg_outside.specs.Rows.{Held, first_from, last_before, rows_from, applied};
ghost use Rattle.agg_model.specs.Batch.{HasNoRepeats};
ghost use Rattle.agg_model.specs.Arranged.{arranged_from};
ghost use Rattle.agg_model.specs.Pairs.{hot_change};
ghost use Rattle.row_epochs.specs.Errors.{IsWorn, IsUnworn, NamesLimit};
ghost use Rattle.row_epochs.specs.Seen.{seen, view, SameUpTo, SameFrom, dead, without_dead};
ghost use Rattle.row_epochs.specs.Changes.{IsNew, changes_seen, writes_of, kills_of};
ghost use Rattle.row_epochs.specs.Starts.{MayBecome};
ghost use Rattle.row_epochs.specs.Versions.{AreVersions, IsAlive};

use crate::error::RowsError;
use crate::killed::{Kills, dead_ids, forget_dead, note_kills};
use crate::scan::{last_seen, some_seen};
use crate::writes::{inserts_of, kills_of, removals_of};
use agg_model::{Batch, Change, Entity};
use agg_outside::{Keeper, Row, RowId, Rowlist};
use std::alloc::Global;
use std::marker::Model;

/// The greatest epoch.
const MOST_EPOCH: u64 = 1 << 62;

/// A keeper's rows with the present epoch.
#[derive(Drop)]
pub struct Rows<K: Keeper> {
    keeper: K,
    epoch: u64,
    /// The killed rows, once a purge has been asked for.
    kills: Option<Kills>,
}

impl<K: Keeper> Model for Rows<K> {
    ghost use Rattle.std.specs.Prelude.{◌^◌, ◌≤◌, IfSome};
    ghost use Rattle.row_epochs.specs.Versions.{Versions, AreVersions};
    ghost use Rattle.row_epochs.specs.Kills.{AreKillsNoted};

    ghost Value = { Versions };

    ghost view = { λ r. record { told = K.held r.keeper; epoch = r.epoch; faults = K.faults r.keeper } };

    ghost invariant = { λ r. (r.epoch ≤ 2 ^ 62) × IfSome (K.held r.keeper) (AreVersions r.epoch)
        × IfSome (K.held r.keeper) (λ h. AreKillsNoted r.kills h.rows) };
}

// The epoch after this one.
fn raised(epoch: u64) -> Result<u64, RowsError>
    requires { epoch ≤ 2 ^ 62 }
    ensures next { IfOk result (λ next. next ≡ epoch + 1) }
    ensures within { IfOk result (λ next. next ≤ 2 ^ 62) }
    ensures worn { IsWorn result ↔ (epoch ≡ 2 ^ 62) }
    ensures limit { NamesLimit result }
    ensures only { OnErr result (IsWorn result) }
{
    if epoch >= MOST_EPOCH {
        return Err(RowsError::Worn { epoch });
    }
    Ok(epoch + 1)
}

impl<K: Keeper> Rows<K> {
    pub fn of(keeper: K, epoch: u64) -> Rows<K>
        requires epoch { epoch ≤ 2 ^ 62 }
        requires rows { ForSome (K.held keeper) (λ h. MayBecome epoch h.rows) }
        ensures { result ≡ record { told = K.held keeper; epoch = epoch; faults = K.faults keeper } }
    {
        Rows {
            keeper,
            epoch,
            kills: None,
        }
    }

    pub fn epoch(&self) -> u64
        ensures epoch { result ≡ self.now.epoch }
        ensures within { self.now.epoch ≤ 2 ^ 62 }
        ensures rows { IfSome self.now.told (AreVersions self.now.epoch) }
    {
        self.epoch
    }

    pub fn into_keeper(self) -> K
        ensures told { K.held result ≡ self.told }
        ensures faults { K.faults result ≡ self.faults }
    {
        let Rows { keeper, .. } = self;
        keeper
    }

    /// The epoch rises by 1, and nothing else changes.
    pub fn raise(&mut self) -> Result<(), RowsError>
        ensures ok { OnOk result (self.new ≡ record self.old { epoch = self.old.epoch + 1 }) }
        ensures err { OnErr result (self.new ≡ self.old) }
        ensures worn { IsWorn result ↔ (self.old.epoch ≡ 2 ^ 62) }
        ensures limit { NamesLimit result }
        ensures only { OnErr result (IsWorn result) }
        ensures sound { IfSome self.new.told (AreVersions self.new.epoch) }
    {
        self.epoch = raised(self.epoch)?;
        Ok(())
    }

    /// Adds the changes, born at the raised epoch, in one write of the keeper.
    pub fn write(&mut self, alloc: Global, batch: &Batch) -> Result<(), RowsError>
        requires apart { HasNoRepeats batch.now }
        requires new { ForSome self.old.told (λ h. All (λ c. IsNew c (changes_seen self.old.epoch h.rows)) batch.now) }
        ensures ok { IfSome self.old.told
            (λ h. OnOk result (self.new.told ≡ Some (applied (writes_of (self.old.epoch + 1) batch.now) h))) }
        // The new epoch sees the changes of the one before and those of the batch, and earlier ones see what they saw.
        ensures changes { IfSome self.old.told (λ h. OnOk result (IsSomeAnd self.new.told
            (λ k. changes_seen (self.old.epoch + 1) k.rows
            ≡ arranged_from (changes_seen self.old.epoch h.rows) batch.now))) }
        ensures earlier { IfSome self.old.told
            (λ h. OnOk result (IsSomeAnd self.new.told (λ k. SameUpTo self.old.epoch h.rows k.rows))) }
        ensures silent { IfNone self.old.told (self.new.told ≡ None) }
        ensures epoch { OnOk result (self.new.epoch ≡ self.old.epoch + 1) }
        ensures err { OnErr result (self.new ≡ record self.old { faults = self.new.faults }) }
        ensures worn { IsWorn result ↔ (self.old.epoch ≡ 2 ^ 62) }
        ensures limit { NamesLimit result }
        ensures cause { HasCause RowsError.Keeper self.old.faults self.new.faults result }
        ensures sound { IfSome self.new.told (AreVersions self.new.epoch) }
    {
        let epoch = raised(self.epoch)?;
        let writes = inserts_of(alloc, epoch, batch)?;
        self.keeper.apply(alloc, writes.as_slice())?;
        self.epoch = epoch;
        Ok(())
    }

    /// Kills these alive rows at the raised epoch and sets the floor, in one write of the keeper. What
    /// earlier epochs see stays until a purge.
    pub fn kill(&mut self, alloc: Global, ids: &[RowId], floor: u64) -> Result<(), RowsError>
        requires alive { ForSome self.old.told (λ h. All (IsAlive h.rows) ids.now) }
        ensures ok { IfSome self.old.told
            (λ h. OnOk result (self.new.told ≡ Some (applied (kills_of (self.old.epoch + 1) floor ids.now) h))) }
        ensures earlier { IfSome self.old.told
            (λ h. OnOk result (IsSomeAnd self.new.told (λ k. SameUpTo self.old.epoch h.rows k.rows))) }
        ensures silent { IfNone self.old.told (self.new.told ≡ None) }
        ensures epoch { OnOk result (self.new.epoch ≡ self.old.epoch + 1) }
        ensures err { OnErr result (self.new ≡ record self.old { faults = self.new.faults }) }
        ensures worn { IsWorn result ↔ (self.old.epoch ≡ 2 ^ 62) }
        ensures limit { NamesLimit result }
        ensures cause { HasCause RowsError.Keeper self.old.faults self.new.faults result }
        ensures sound { IfSome self.new.told (AreVersions self.new.epoch) }
    {
        let epoch = raised(self.epoch)?;
        let writes = kills_of(alloc, epoch, floor, ids)?;
        self.keeper.apply(alloc, writes.as_slice())?;
        self.epoch = epoch;
        note_kills(alloc, &mut self.kills, epoch, ids);
        Ok(())
    }

    /// The change of the key that the epoch sees with the greatest number from `from` on and below
    /// `before`: one look back, and one more for each version in the way that it doesn't see.
    pub fn view_last(
        &mut self,
        alloc: Global,
        epoch: u64,
        entity: Entity,
        key: &[u8],
        from: u64,
        before: u64,
    ) -> Result<Option<Change>, RowsError>
        ensures change { IfSome self.old.told
            (λ h. IfOk result (λ change. change ≡ hot_change (changes_seen epoch h.rows) entity key.now from before)) }
        ensures same { self.new ≡ record self.old { faults = self.new.faults } }
        ensures unworn { IsUnworn result }
        ensures cause { HasCause RowsError.Keeper self.old.faults self.new.faults result }
    {
        last_seen(&mut self.keeper, alloc, epoch, entity, key, from, before)
    }

    /// The first `limit` rows not before `from` that the epoch sees. The rows are read in pieces.
    pub fn view_some(
        &mut self,
        alloc: Global,
        epoch: u64,
        from: &RowId,
        limit: usize,
    ) -> Result<Rowlist, RowsError>
        ensures rows { IfSome self.old.told
            (λ h. IfOk result (λ rows. rows ≡ take limit (seen epoch (rows_from from.now h.rows)))) }
        ensures same { self.new ≡ record self.old { faults = self.new.faults } }
        ensures unworn { IsUnworn result }
        ensures cause { HasCause RowsError.Keeper self.old.faults self.new.faults result }
    {
        some_seen(&mut self.keeper, alloc, epoch, from, limit)
    }

    /// The first row not before `from`, whichever epochs see it.
    pub fn row_from(&mut self, alloc: Global, from: &RowId) -> Result<Option<Row>, RowsError>
        ensures row { IfSome self.old.told (λ h. IfOk result (λ row. row ≡ first_from from.now h.rows)) }
        ensures same { self.new ≡ record self.old { faults = self.new.faults } }
        ensures unworn { IsUnworn result }
        ensures cause { HasCause RowsError.Keeper self.old.faults self.new.faults result }
    {
        Ok(self.keeper.seek(alloc, from)?)
    }

    /// The last row before `before`, whichever epochs see it.
    pub fn row_before(&mut self, alloc: Global, before: &RowId) -> Result<Option<Row>, RowsError>
        ensures row { IfSome self.old.told (λ h. IfOk result (λ row. row ≡ last_before before.now h.rows)) }
        ensures same { self.new ≡ record self.old { faults = self.new.faults } }
        ensures unworn { IsUnworn result }
        ensures cause { HasCause RowsError.Keeper self.old.faults self.new.faults result }
    {
        Ok(self.keeper.seek_back(alloc, before)?)
    }

    /// The keeper's floor, a step number.
    pub fn floor(&mut self) -> Result<u64, RowsError>
        ensures floor { IfSome self.old.told (λ h. IfOk result (λ floor. floor ≡ h.floor)) }
        ensures same { self.new ≡ record self.old { faults = self.new.faults } }
        ensures unworn { IsUnworn result }
        ensures cause { HasCause RowsError.Keeper self.old.faults self.new.faults result }
    {
        Ok(self.keeper.floor()?)
    }

    /// Removes exactly the rows that were killed at `oldest` or before, in one write of the keeper, and
    /// answers how many. The first call goes over all rows and notes the killed ones; from then on each row
    /// is noted when it is killed, and a call goes over the notes alone.
    pub fn purge(&mut self, alloc: Global, oldest: u64) -> Result<u64, RowsError>
        ensures ok { IfSome self.old.told
            (λ h. OnOk result (self.new.told ≡ Some (record h { rows = without_dead oldest h.rows }))) }
        ensures count { IfSome self.old.told (λ h. IfOk result (λ count. count ≡ length (dead oldest h.rows))) }
        ensures later { IfSome self.old.told
            (λ h. OnOk result (IsSomeAnd self.new.told (λ k. SameFrom oldest h.rows k.rows))) }
        ensures silent { IfNone self.old.told (self.new.told ≡ None) }
        ensures epoch { self.new.epoch ≡ self.old.epoch }
        ensures err { OnErr result (self.new ≡ record self.old { faults = self.new.faults }) }
        ensures unworn { IsUnworn result }
        ensures cause { HasCause RowsError.Keeper self.old.faults self.new.faults result }
        ensures sound { IfSome self.new.told (AreVersions self.new.epoch) }
    {
        let ids = dead_ids(&mut self.keeper, &mut self.kills, alloc, oldest)?;
        let count = ids.len() as u64;
        let writes = removals_of(alloc, ids)?;
        self.keeper.apply(alloc, writes.as_slice())?;
        forget_dead(&mut self.kills, oldest);
        Ok(count)
    }
}
