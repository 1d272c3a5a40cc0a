ghost use Rattle.std.specs.Prelude.{◌≡◌, ◌↔◌, ◌≢◌, ℕ, ◌+◌, ◌^◌, ◌*◌, ◌<◌, ◌≤◌, true, false, length, take, min, nat_lt, All, Some, None, IfSome, IfNone, IfOk, IfErr, OnOk, OnErr, IsSomeAnd};
ghost use Rattle.std.specs.Option.{ForSome};
ghost use Rattle.agg_outside.specs.Counts.{HasCause};
ghost use Rattle.agg_outside.specs.Rows.{Held, applied};
ghost use Rattle.agg_model.specs.Batch.{HasNoRepeats};
ghost use Rattle.agg_model.specs.Arranged.{arranged_from};
ghost use Rattle.agg_model.specs.Pairs.{hot_change};
ghost use Rattle.row_epochs.specs.Errors.{IsWorn, IsUnworn, NamesLimit};
ghost use Rattle.row_epochs.specs.Seen.{SameUpTo, SameFrom, dead, without_dead};
ghost use Rattle.row_epochs.specs.Changes.{IsNew, changes_seen, writes_of};
ghost use Rattle.row_epochs.specs.Versions.{AreVersions};
ghost use Rattle.hot_keeper.specs.Windows.{act_of_change, window_times, window_keys, changes_of_step};
ghost use Rattle.hot_keeper.specs.Pruning.{low_rows, does_prune, pruned, epoch_pruned};

use crate::ahead::{ReadAhead, keep_ahead};
use crate::keys::keys_within;
use crate::notes::{Notes, drop_below, note_batch};
use crate::pruning::{Low, Pruned, kill_first, look_low};
use crate::skips::{few_noted, kill_after};
use crate::steps::changes_within;
use crate::times::{times_down, times_up};
use agg_model::{Act, Batch, Entity, Range, StepRows};
use agg_outside::{Keeper, Keys, Numbers};
use row_epochs::{Rows, RowsError};
use std::alloc::Global;
use std::marker::Model;

/// The rows that aren't in files yet, or not pruned yet, as windows of changes.
#[derive(Drop)]
pub struct Hot<K: Keeper> {
    rows: Rows<K>,
    /// Each alive row by its number, once a step has been asked for.
    notes: Option<Notes>,
    /// The rows of the next prunes, once one has left some.
    ahead: Option<ReadAhead>,
    /// The epoch at which rows were killed last, or a later one: those from it on see alive rows alone.
    last_kill: u64,
}

impl<K: Keeper> Model for Hot<K> {
    ghost use Rattle.std.specs.Prelude.{IfSome};
    ghost use Rattle.row_epochs.specs.Versions.{Versions, AreVersions};
    ghost use Rattle.hot_keeper.specs.Notes.{AreNoted};
    ghost use Rattle.hot_keeper.specs.ReadAhead.{AreAhead};
    ghost use Rattle.hot_keeper.specs.Skips.{AreKilledBy};

    ghost Value = { Versions };

    ghost view = { λ h. h.rows };

    ghost invariant = { λ h. IfSome h.rows.told (AreVersions h.rows.epoch)
        × IfSome h.rows.told (λ k. AreNoted h.notes k.rows)
        × IfSome h.rows.told (λ k. AreAhead h.ahead k.rows)
        × IfSome h.rows.told (λ k. AreKilledBy h.last_kill k.rows) };
}

impl<K: Keeper> Hot<K> {
    pub fn of(rows: Rows<K>) -> Hot<K>
        ensures { result ≡ rows }
    {
        // That the rows are in order is a clause of this call.
        let present = rows.epoch();
        Hot {
            rows,
            notes: None,
            ahead: None,
            last_kill: present,
        }
    }

    pub fn into_rows(self) -> Rows<K>
        ensures { result ≡ self }
    {
        let Hot { rows, .. } = self;
        rows
    }

    pub fn epoch(&self) -> u64
        ensures epoch { result ≡ self.now.epoch }
        ensures within { self.now.epoch ≤ 2 ^ 62 }
        ensures rows { IfSome self.now.told (AreVersions self.now.epoch) }
    {
        self.rows.epoch()
    }

    /// The epoch rises by 1, and nothing else changes.
    pub fn raise(&mut self) -> Result<(), RowsError>
        ensures ok { OnOk result (self.new ≡ record self.old { epoch = self.old.epoch + 1 }) }
        ensures err { OnErr result (self.new ≡ self.old) }
        ensures worn { IsWorn result ↔ (self.old.epoch ≡ 2 ^ 62) }
        ensures limit { NamesLimit result }
        ensures only { OnErr result (IsWorn result) }
    {
        self.rows.raise()
    }

    /// Adds the changes, born at the raised epoch, in one write of the keeper.
    pub fn ingest(&mut self, alloc: Global, batch: &Batch) -> Result<(), RowsError>
        requires apart { HasNoRepeats batch.now }
        requires new { ForSome self.old.told (λ h. All (λ c. IsNew c (changes_seen self.old.epoch h.rows)) batch.now) }
        ensures ok { IfSome self.old.told
            (λ h. OnOk result (self.new.told ≡ Some (applied (writes_of (self.old.epoch + 1) batch.now) h))) }
        // The new epoch sees the changes of the one before and those of the batch, and earlier ones see what they saw.
        ensures changes { IfSome self.old.told (λ h. OnOk result (IsSomeAnd self.new.told
            (λ k. changes_seen (self.old.epoch + 1) k.rows
            ≡ arranged_from (changes_seen self.old.epoch h.rows) batch.now))) }
        ensures earlier { IfSome self.old.told
            (λ h. OnOk result (IsSomeAnd self.new.told (λ k. SameUpTo self.old.epoch h.rows k.rows))) }
        ensures silent { IfNone self.old.told (self.new.told ≡ None) }
        ensures epoch { OnOk result (self.new.epoch ≡ self.old.epoch + 1) }
        ensures err { OnErr result (self.new ≡ record self.old { faults = self.new.faults }) }
        ensures worn { IsWorn result ↔ (self.old.epoch ≡ 2 ^ 62) }
        ensures limit { NamesLimit result }
        ensures cause { HasCause RowsError.Keeper self.old.faults self.new.faults result }
    {
        let next = self.rows.epoch() + 1;
        note_batch(alloc, &mut self.notes, next, batch);
        keep_ahead(&mut self.ahead, batch);
        self.rows.write(alloc, batch)
    }

    /// What the last change of the key did that the epoch sees from `from` on and below `before`: one look
    /// back, and one more for each version in the way that it doesn't see.
    pub fn last(
        &mut self,
        alloc: Global,
        epoch: u64,
        entity: Entity,
        key: &[u8],
        from: u64,
        before: u64,
    ) -> Result<Option<Act>, RowsError>
        ensures act { IfSome self.old.told (λ h. IfOk result
            (λ act. act ≡ act_of_change (hot_change (changes_seen epoch h.rows) entity key.now from before))) }
        ensures same { self.new ≡ record self.old { faults = self.new.faults } }
        ensures unworn { IsUnworn result }
        ensures cause { HasCause RowsError.Keeper self.old.faults self.new.faults result }
    {
        let change = self
            .rows
            .view_last(alloc, epoch, entity, key, from, before)?;
        Ok(change.map(|change| change.act))
    }

    /// The first `limit` numbers from `from` on and below `to` at which the epoch sees a change of the key,
    /// from the last one down where `back`: a look for each number, one for each version in the way that
    /// the epoch doesn't see, and one more.
    pub fn times(
        &mut self,
        alloc: Global,
        epoch: u64,
        entity: Entity,
        key: &[u8],
        from: u64,
        to: u64,
        back: bool,
        limit: usize,
    ) -> Result<Numbers, RowsError>
        ensures numbers { IfSome self.old.told (λ h. IfOk result
            (λ numbers. numbers ≡ take limit (window_times back (changes_seen epoch h.rows) entity key.now from to))) }
        ensures same { self.new ≡ record self.old { faults = self.new.faults } }
        ensures unworn { IsUnworn result }
        ensures cause { HasCause RowsError.Keeper self.old.faults self.new.faults result }
    {
        let numbers = Range { from, to };
        if back {
            return times_down(&mut self.rows, alloc, epoch, entity, key, numbers, limit);
        }
        times_up(&mut self.rows, alloc, epoch, entity, key, numbers, limit)
    }

    /// The first `limit` keys of the entity not below `from` of which the epoch sees a change from
    /// `tx_from` on and below `tx_to`: at most two looks for each key, one for each version in the way that
    /// the epoch doesn't see, and one more; none where there is no such number. Where at most 256 rows are
    /// noted with such numbers and no row was killed after the epoch, their ids are gathered first, and no
    /// look goes to a key between them.
    pub fn keys(
        &mut self,
        alloc: Global,
        epoch: u64,
        entity: Entity,
        from: &[u8],
        tx_from: u64,
        tx_to: u64,
        limit: usize,
    ) -> Result<Keys, RowsError>
        ensures keys { IfSome self.old.told (λ h. IfOk result
            (λ keys. keys ≡ take limit (window_keys (changes_seen epoch h.rows) entity from.now tx_from tx_to))) }
        ensures same { self.new ≡ record self.old { faults = self.new.faults } }
        ensures unworn { IsUnworn result }
        ensures cause { HasCause RowsError.Keeper self.old.faults self.new.faults result }
    {
        if tx_from >= tx_to {
            return Ok(Keys::new(alloc));
        }
        let numbers = Range {
            from: tx_from,
            to: tx_to,
        };
        let noted = few_noted(alloc, &self.notes, self.last_kill, epoch, numbers)?;
        keys_within(
            &mut self.rows,
            &noted,
            alloc,
            epoch,
            entity,
            from,
            numbers,
            limit,
        )
    }

    /// The changes of the step that the present epoch sees, sorted by entity, key and number.
    pub fn step_rows(&mut self, alloc: Global, step: u64, size: u64) -> Result<StepRows, RowsError>
        requires step { step < 4096 }
        requires size { size ≤ 2 ^ 32 }
        ensures step { IfOk result (λ rows. rows.step ≡ step) }
        ensures changes { IfSome self.old.told
            (λ h. IfOk result (λ rows. rows.changes ≡ changes_of_step size step (changes_seen self.old.epoch h.rows))) }
        ensures same { self.new ≡ record self.old { faults = self.new.faults } }
        ensures unworn { IsUnworn result }
        ensures cause { HasCause RowsError.Keeper self.old.faults self.new.faults result }
    {
        let from = step * size;
        let numbers = Range {
            from,
            to: from + size,
        };
        let changes = changes_within(&mut self.rows, &mut self.notes, alloc, numbers)?;
        Ok(StepRows { step, changes })
    }

    /// Kills the first `limit` alive rows with numbers below `tx`, in row order, and sets the floor, in one
    /// write of the keeper at the raised epoch. Where there is no such row and the floor stands already,
    /// nothing is written. Calls with one number go over each row once together: what a piece has more than
    /// the call kills is kept for the next one, which reads on from there.
    pub fn kill_below(
        &mut self,
        alloc: Global,
        tx: u64,
        floor: u64,
        limit: usize,
    ) -> Result<Pruned, RowsError>
        requires floor { ForSome self.old.told (λ h. h.floor ≤ floor) }
        ensures ok { IfSome self.old.told
            (λ h. OnOk result (self.new.told ≡ Some (pruned (self.old.epoch + 1) tx floor limit h))) }
        ensures earlier { IfSome self.old.told
            (λ h. OnOk result (IsSomeAnd self.new.told (λ k. SameUpTo self.old.epoch h.rows k.rows))) }
        ensures killed { IfSome self.old.told
            (λ h. IfOk result (λ pruned. pruned.killed ≡ length (take limit (low_rows tx h.rows)))) }
        ensures left { IfSome self.old.told
            (λ h. IfOk result (λ pruned. (pruned.left ≡ 0) ↔ (length (low_rows tx h.rows) ≤ limit))) }
        ensures epoch { IfSome self.old.told
            (λ h. OnOk result (self.new.epoch ≡ epoch_pruned self.old.epoch tx floor limit h)) }
        ensures silent { IfNone self.old.told (self.new.told ≡ None) }
        ensures err { OnErr result (self.new ≡ record self.old { faults = self.new.faults }) }
        // The epoch is worn exactly where it stands at its limit and would rise.
        ensures limit { NamesLimit result }
        ensures worn { IsWorn result → (self.old.epoch ≡ 2 ^ 62) × IfSome self.old.told
            (λ h. does_prune tx floor limit h ≡ true) }
        ensures rises { self.old.epoch ≡ 2 ^ 62 → IfSome self.old.told
            (λ h. OnOk result (does_prune tx floor limit h ≡ false)) }
        ensures cause { HasCause RowsError.Keeper self.old.faults self.new.faults result }
    {
        let before = self.rows.epoch();
        let pruned = kill_first(&mut self.rows, &mut self.ahead, alloc, tx, floor, limit)?;
        self.last_kill = kill_after(self.last_kill, before, self.rows.epoch());
        if pruned.left == 0 {
            drop_below(alloc, &mut self.notes, tx);
        }
        Ok(pruned)
    }

    /// How many alive rows have numbers below `tx`, and the floor. It goes over all rows once.
    pub fn low(&mut self, alloc: Global, tx: u64) -> Result<Low, RowsError>
        ensures alive { IfSome self.old.told (λ h. IfOk result (λ low. low.alive ≡ length (low_rows tx h.rows))) }
        ensures floor { IfSome self.old.told (λ h. IfOk result (λ low. low.floor ≡ h.floor)) }
        ensures same { self.new ≡ record self.old { faults = self.new.faults } }
        ensures unworn { IsUnworn result }
        ensures cause { HasCause RowsError.Keeper self.old.faults self.new.faults result }
    {
        look_low(&mut self.rows, alloc, tx)
    }

    /// Removes exactly the rows that were killed at `oldest` or before, and answers how many. The first call
    /// goes over all rows, each later one over killed rows alone.
    pub fn purge(&mut self, alloc: Global, oldest: u64) -> Result<u64, RowsError>
        ensures ok { IfSome self.old.told
            (λ h. OnOk result (self.new.told ≡ Some (record h { rows = without_dead oldest h.rows }))) }
        ensures count { IfSome self.old.told (λ h. IfOk result (λ count. count ≡ length (dead oldest h.rows))) }
        ensures later { IfSome self.old.told
            (λ h. OnOk result (IsSomeAnd self.new.told (λ k. SameFrom oldest h.rows k.rows))) }
        ensures silent { IfNone self.old.told (self.new.told ≡ None) }
        ensures epoch { self.new.epoch ≡ self.old.epoch }
        ensures err { OnErr result (self.new ≡ record self.old { faults = self.new.faults }) }
        ensures unworn { IsUnworn result }
        ensures cause { HasCause RowsError.Keeper self.old.faults self.new.faults result }
    {
        self.rows.purge(alloc, oldest)
    }
}
