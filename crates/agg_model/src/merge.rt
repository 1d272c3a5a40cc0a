ghost use Rattle.std.specs.Prelude.{◌≡◌, ℕ, ◌*◌, ◌≤◌, List, [], ◌++◌, All, IfOk, Some, refl};
ghost use Rattle.std.specs.Ordering.{eq_by_cmp, as_partial_cmp};
ghost use Rattle.std.specs.Cmp.{partial_equiv_from_equiv, eq_by_cmp_equiv, po};
ghost use Rattle.agg_model.specs.Batch.{AscendFrom, HasNoRepeats, IsBatch, content_of};
ghost use Rattle.agg_model.specs.ChangeList.{ChangeList, IsChangeList, grown, next_of, value_at};
ghost use Rattle.agg_model.specs.declared.change.Change.{Change};
ghost use Rattle.agg_model.specs.declared.entity.Entity.{Entity};
ghost use Rattle.agg_model.specs.Merged.{climbs, merged, places_from};
ghost use Rattle.agg_model.specs.Spot.{spot_cmp, spot_cmp_total};

use crate::change::{Batch, Change};
use crate::limits::STEPS_MOST;
use agg_outside::{ListOf, Memory};
use std::alloc::Global;
use std::cmp::Ordering;
use std::collections::BTreeMap;

// A change by where it stands.
#[derive(Clone, Copy)]
struct Spot<'a> {
    change: &'a Change,
}

impl<'a> PartialEq for Spot<'a> {
    ghost eq = { eq_by_cmp spot_cmp };

    ghost laws = { partial_equiv_from_equiv (eq_by_cmp_equiv spot_cmp_total) };

    fn eq(&self, other: &Self) -> bool {
        self.cmp(other).is_eq()
    }
}

impl<'a> Eq for Spot<'a> {
    ghost laws = { eq_by_cmp_equiv spot_cmp_total };
}

impl<'a> PartialOrd for Spot<'a> {
    ghost partial_cmp = { as_partial_cmp spot_cmp };

    ghost laws = { po spot_cmp_total (λ a b. refl) };

    fn partial_cmp(&self, other: &Self) -> Option<Ordering> {
        Some(self.cmp(other))
    }
}

impl<'a> Ord for Spot<'a> {
    ghost cmp = { spot_cmp };

    ghost total = { spot_cmp_total };

    ghost matches_partial_cmp = { λ a b. refl };

    ghost matches_eq = { λ a b. refl };

    #[tactic(auto, unfolding(crate::specs::Place::place_cmp, crate::specs::Place::place_of, crate::specs::Spot::spot_cmp))]
    fn cmp(&self, other: &Self) -> Ordering {
        let one = self.change;
        let two = other.change;
        let entities = one.entity.number().cmp(&two.entity.number());
        let keys = one.key.cmp(&two.key);
        let numbers = one.tx.cmp(&two.tx);
        entities.then(keys.then(numbers))
    }
}

// Whether each number is above the one before: no change can then be repeated.
fn do_numbers_climb(changes: &[Change]) -> bool
    ensures { result ≡ climbs changes.now }
{
    let Some((first, rest)) = changes.split_first() else {
        return true;
    };
    let mut last = first.tx;
    for change in rest {
        if change.tx <= last {
            return false;
        }
        last = change.tx;
    }
    true
}

// Where each change goes among those that are left: to the place of the one that it repeats, or
// behind them all.
fn places_of(alloc: Global, changes: &[Change]) -> Result<Vec<usize>, Memory>
    ensures { IfOk result (λ places. places.items ≡ places_from [] changes.now) }
{
    // Of each spot the last change.
    let mut seen = BTreeMap::new(alloc);
    let mut places: Vec<usize> = Vec::new(alloc);
    let mut count: usize = 0;
    for (i, change) in changes.iter().enumerate() {
        if let Some(before) = seen.insert(Spot { change }, i)? {
            let place = places[before];
            places.push(place)?;
        } else {
            places.push(count)?;
            count += 1;
        }
    }
    Ok(places)
}

// The changes that are left once each went to its place.
fn placed(alloc: Global, batch: Batch, places: &[usize]) -> Result<Batch, Memory>
    requires { places.now ≡ places_from [] batch }
    ensures { IfOk result (λ kept. kept ≡ merged batch) }
{
    let mut kept: Vec<Change> = Vec::new(alloc);
    let mut at: usize = 0;
    for change in batch.into_vec() {
        let place = places[at];
        at += 1;
        if place < kept.len() {
            kept[place] = change;
        } else {
            kept.push(change)?;
        }
    }
    Ok(ListOf::from_vec(kept))
}

/// The batch with the last change alone of each number, entity and key, at the place of the first.
/// A batch whose numbers climb is answered as it is, and takes no memory.
pub fn merge_repeats(alloc: Global, batch: Batch) -> Result<Batch, Memory>
    ensures { IfOk result (λ kept. kept ≡ merged batch) }
{
    if do_numbers_climb(batch.as_slice()) {
        return Ok(batch);
    }
    let places = places_of(alloc, batch.as_slice())?;
    placed(alloc, batch, places.as_slice())
}

/// What holds of every batch once it is merged.
pub fn merged_laws()
    ensures no_repeats { (cs : List Change) → HasNoRepeats (merged cs) }

    // It may come where the batch may, and then leaves the same values and next number.
    ensures fits { (next far : ℕ) (cs : List Change) → IsBatch next far cs → IsBatch next far (merged cs) }
    ensures same_values { (before cs : List Change) (least : ℕ) (e : Entity) (k : List ℕ) (n : ℕ) →
        AscendFrom least cs → value_at (before ++ merged cs) e k n ≡ value_at (before ++ cs) e k n }
    ensures same_next { (next least : ℕ) (cs : List Change) → AscendFrom least cs → next_of next (merged cs) ≡ next_of next cs }

    ensures no_more { (cs : List Change) → content_of (merged cs) ≤ content_of cs }
    ensures empty { (cs : List Change) → merged cs ≡ [] → cs ≡ [] }
{}

/// What holds of every list once a batch that may come next, without repeats, is added to it.
pub fn grown_laws()
    ensures list { (list : ChangeList) (batch : List Change) → IsChangeList list →
        IsBatch list.next (STEPS_MOST * list.size) batch → HasNoRepeats batch → IsChangeList (grown list batch) }
    // What was there to read stays.
    ensures stays { (cs ds : List Change) (e : Entity) (k : List ℕ) (n : ℕ) →
        All (λ d. n ≤ d.tx) ds → value_at (cs ++ ds) e k n ≡ value_at cs e k n }
{}
