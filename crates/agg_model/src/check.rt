ghost use Rattle.std.specs.Prelude.{◌≡◌, ◌<◌, ◌^◌, length, All, Some, None, OnOk, if◌then◌else◌};
ghost use Rattle.std.specs.Result.{result_err};
ghost use Rattle.agg_model.specs.Batch.{fits_entity, IsBatch, IsChange, HasValue, content_of};
ghost use Rattle.agg_model.specs.BatchRefusals.{is_outside, value_refusal, shape_refusal, number_refusal, first_refusal};

use crate::change::{Act, Batch, Change};
use crate::entity::Entity;
use crate::limits::{KEY_MOST, VALUE_MOST};
use agg_outside::{Bytes, slice_fits};

/// Why a batch may not come next.
#[derive(Clone, Copy, Debug, PartialEq, Eq)]
pub enum BatchError {
    /// A mark of a domain, or a value or deletion of an index.
    WrongAct(Entity),
    /// The key has this length, which isn't from 1 to 64.
    KeyLength(u64),
    /// The value has this length, which isn't from 1 to 65,535.
    ValueLength(u64),
    /// The number `got` is below `last`, that of the change before it. A first change has `last`
    /// one below the next number.
    Order { last: u64, got: u64 },
    /// The number `got` isn't below `far`.
    Far { far: u64, got: u64 },
}

// The length, if it isn't from 1 to `most`.
fn outside(most: u64, bytes: &Bytes) -> Option<u64>
    ensures length { result ≡ (if is_outside most (length bytes.now) then Some (length bytes.now) else None) }
    ensures bytes { All (λ b. b < 256) bytes.now }
{
    let bytes = bytes.as_slice();
    slice_fits(bytes);
    let length = bytes.len() as u64;
    if length < 1 || most < length {
        Some(length)
    } else {
        None
    }
}

fn check_value(act: &Act) -> Result<(), BatchError>
    ensures exact { result_err result ≡ value_refusal act.now }
    ensures ok { OnOk result (HasValue act.now) }
{
    match act {
        Act::Put(value) => match outside(VALUE_MOST, value) {
            Some(length) => Err(BatchError::ValueLength(length)),
            None => Ok(()),
        },
        Act::Del => Ok(()),
        Act::Mark => Ok(()),
    }
}

fn does_fit(change: &Change) -> bool
    ensures { result ≡ fits_entity change.now.entity change.now.act }
{
    match &change.act {
        Act::Put(_) => change.entity.is_domain(),
        Act::Del => change.entity.is_domain(),
        Act::Mark => !change.entity.is_domain(),
    }
}

#[tactic(auto, unfolding(crate::specs::BatchRefusals::shape_refusal))]
fn check_shape(change: &Change) -> Result<(), BatchError>
    ensures exact { result_err result ≡ shape_refusal change.now }
    ensures ok { OnOk result (IsChange change.now) }
{
    if !does_fit(change) {
        return Err(BatchError::WrongAct(change.entity));
    }
    if let Some(length) = outside(KEY_MOST, &change.key) {
        return Err(BatchError::KeyLength(length));
    }
    check_value(&change.act)
}

#[tactic(auto, unfolding(crate::specs::BatchRefusals::number_refusal))]
fn check_number(least: u64, last: u64, far: u64, tx: u64) -> Result<(), BatchError>
    ensures { result_err result ≡ number_refusal least last far tx }
{
    if tx < least {
        return Err(BatchError::Order { last, got: tx });
    }
    if tx >= far {
        return Err(BatchError::Far { far, got: tx });
    }
    Ok(())
}

/// Whether the batch may come after all numbers below `next`, with numbers below `far`. Goes
/// through the changes in order and answers the first refusal.
#[tactic(auto, unfolding(crate::specs::BatchRefusals::first_refusal))]
pub fn check_batch(next: u64, far: u64, batch: &Batch) -> Result<(), BatchError>
    ensures exact { result_err result ≡ first_refusal next far batch.now }
    ensures ok { OnOk result (IsBatch next far batch.now) }
{
    let mut least = next;
    let mut last = next.saturating_sub(1);
    for change in batch.as_slice() {
        check_shape(change)?;
        check_number(least, last, far, change.tx)?;
        least = change.tx;
        last = change.tx;
    }
    Ok(())
}

/// The bytes of all keys and values, and 64 for each change: what limits count.
pub fn content(batch: &Batch) -> u64
    requires { content_of batch.now < 2 ^ 63 }
    ensures { result ≡ content_of batch.now }
{
    let mut total: u64 = 0;
    for change in batch.as_slice() {
        total += change.content();
    }
    total
}
