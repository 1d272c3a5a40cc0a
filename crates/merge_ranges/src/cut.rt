ghost use Rattle.std.specs.Prelude.{◌≡◌, ℕ, ◌<◌, ◌≤◌, ◌↔◌, ◌+◌, ◌%◌, ◌==◌, ◌&&◌, nat_le, List, [], true, false, None, IfOk, IfSome};
ghost use Rattle.agg_model.specs.declared.entity.Range.{Range};
ghost use Rattle.merge_ranges.specs.CanonicalNames.{RangesAscend};
ghost use Rattle.merge_ranges.specs.Cut.{IsCut, HasAll, IsUnionIn, is_size, is_aligned, size_at, canon, end_of, is_to_merge, next_merge_of, contains_range, meets_any};

use agg_model::{Entity, Range, STEPS_MOST};
use agg_outside::{ListOf, Memory};
use std::alloc::Global;

/// Adjacent aligned ranges of steps from 0 on.
pub type Cut = ListOf<Range>;

/// The files of one entity over one range of steps.
pub trait Group {
    ghost use Rattle.agg_model.specs.declared.entity.Entity.{Entity};
    ghost use Rattle.agg_model.specs.declared.entity.Range.{Range};
    ghost use Rattle.std.specs.Prelude.{◌≡◌};

    /// What the files are of.
    ghost entity_of: { Self → Entity };

    /// The steps that the files cover.
    ghost range_of: { Self → Range };

    fn entity(&self) -> Entity
        ensures { result ≡ entity_of self.now };

    fn range(&self) -> Range
        ensures { result ≡ range_of self.now };
}

// The lengths of aligned ranges, the longest first.
const SIZES: [u64; 7] = [64, 32, 16, 8, 4, 2, 1];

// Whether a range of this length can begin at `from`, and then ends at most at `end`.
fn does_fit(from: u64, size: u64, end: u64) -> bool
    requires within { from < end }
    requires some { 0 < size }
    ensures { result ≡ ((from % size == 0) && nat_le (from + size) end) }
{
    from % size == 0 && size <= end - from
}

// The length of the longest aligned range from `from` on that ends at most at `end`.
#[tactic(auto, unfolding(crate::specs::Cut::size_at))]
fn longest(from: u64, end: u64) -> u64
    requires { from < end }
    ensures exact { result ≡ size_at from end }
    ensures some { 0 < result }
    ensures within { from + result ≤ end }
{
    for size in SIZES {
        if does_fit(from, size, end) {
            return size;
        }
    }
    1
}

fn is_length(n: u64) -> bool
    ensures { result ≡ is_size n }
{
    matches!(n, 1 | 2 | 4 | 8 | 16 | 32 | 64)
}

/// Whether the number of steps is a power of two that is at most 64 and divides the first step, and
/// no step is above 4,095.
#[tactic(auto, unfolding(crate::specs::Cut::is_aligned))]
pub fn is_aligned_range(range: Range) -> bool
    ensures { result ≡ is_aligned range }
{
    if range.to <= range.from || range.to > STEPS_MOST {
        return false;
    }
    let length = range.to - range.from;
    is_length(length) && range.from % length == 0
}

/// The cut of the steps below `m` that takes, from the left, always the longest aligned range that
/// fits.
pub fn canon_cut(alloc: Global, m: u64) -> Result<Cut, Memory>
    requires { m ≤ STEPS_MOST }
    ensures { IfOk result (λ cut. cut ≡ canon m) }
{
    let mut cut = ListOf::new(alloc);
    let mut from = 0;
    while from < m {
        let to = from + longest(from, m);
        cut.push(Range { from, to })?;
        from = to;
    }
    Ok(cut)
}

fn contains(cut: &Cut, range: Range) -> bool
    ensures { result ≡ contains_range cut.now range }
{
    for other in cut.as_slice() {
        if other.from == range.from && other.to == range.to {
            return true;
        }
    }
    false
}

fn meets_some(busy: &Cut, range: Range) -> bool
    ensures { result ≡ meets_any busy.now range }
{
    for other in busy.as_slice() {
        if other.from < range.to && range.from < other.to {
            return true;
        }
    }
    false
}

#[tactic(auto, unfolding(crate::specs::Cut::is_to_merge))]
fn is_free(cut: &Cut, busy: &Cut, range: Range) -> bool
    ensures { result ≡ is_to_merge cut.now busy.now range }
{
    !contains(cut, range) && !meets_some(busy, range)
}

// The step at which the last range ends.
fn end(cut: &Cut) -> u64
    ensures { result ≡ end_of cut.now }
{
    let mut end = 0;
    for range in cut.as_slice() {
        end = range.to;
    }
    end
}

/// The first range of the canonical cut of the cut's end that isn't in the cut and meets no range
/// of `busy`, which may be any ranges; takes no memory.
pub fn next_merge(cut: &Cut, busy: &Cut) -> Option<Range>
    requires { IsCut cut.now }
    ensures exact { result ≡ next_merge_of cut.now busy.now }
    // What it answers can be merged: it is made of at least two ranges of the cut.
    ensures union { IfSome result (IsUnionIn cut.now) }

    ensures settled { busy.now ≡ [] → (result ≡ None) ↔ (cut.now ≡ canon (end_of cut.now)) }
{
    let end = end(cut);
    let mut from = 0;
    while from < end {
        let range = Range {
            from,
            to: from + longest(from, end),
        };
        if is_free(cut, busy, range) {
            return Some(range);
        }
        from = range.to;
    }
    None
}

/// What holds of the canonical cuts.
pub fn canon_laws()
    ensures cut { (m : ℕ) → m ≤ STEPS_MOST → IsCut (canon m) }
    ensures end { (m : ℕ) → end_of (canon m) ≡ m }
    // Each cut is a finer one.
    ensures union { (cut : List Range) (r : Range) → IsCut cut →
        contains_range (canon (end_of cut)) r ≡ true → contains_range cut r ≡ false → IsUnionIn cut r }
    // Each range of a cut begins before all later ones.
    ensures ascend { (cut : List Range) → IsCut cut → RangesAscend cut }
    ensures whole { (cut : List Range) → IsCut cut → HasAll cut (canon (end_of cut)) → cut ≡ canon (end_of cut) }
{}
