ghost use Rattle.std.specs.Prelude.{◌≡◌, ◌*◌, ◌<◌, ◌^◌, max};

use agg_model::{Act, Entity};
use agg_outside::{Keeper, Keys, Numbers};
use hot_keeper::Hot;
use row_epochs::RowsError;
use std::alloc::Global;
use window_reads::{ReadError, Window};

/// Hot rows as one epoch sees them, from the start of a step on and below a number.
#[derive(Drop)]
pub struct EpochWindow<'a, K: Keeper> {
    hot: &'a mut Hot<K>,
    epoch: u64,
    end: u64,
    from: u64,
    next: u64,
}

impl<'a, K: Keeper> EpochWindow<'a, K> {
    /// What the epoch sees from the first number of the step `end` on, in steps of `size` numbers. It is told that
    /// the changes are below `next`.
    pub fn of(hot: &'a mut Hot<K>, epoch: u64, end: u64, size: u64, next: u64) -> EpochWindow<'a, K>
        requires { end * size < 2 ^ 64 }
        ensures same_reference { result.hot.ghost_name ≡ hot.entry.ghost_name }
        ensures hot { result.hot.now ≡ hot.old }
        ensures epoch { result.epoch ≡ epoch }
        ensures end { result.end ≡ end }
        ensures from { result.from ≡ end * size }
        ensures next { result.next ≡ next }
    {
        EpochWindow {
            hot,
            epoch,
            end,
            from: end * size,
            next,
        }
    }
}

// The later of two starts.
fn later_start(from: u64, other: u64) -> u64
    ensures { result ≡ max from other }
{
    from.max(other)
}

impl<'a, K: Keeper> Window for EpochWindow<'a, K> {
    ghost use Rattle.std.specs.Prelude.{◌≡◌, ◌≤◌};
    ghost use Rattle.epoch_window.specs.Seen.{told_from};
    ghost use Rattle.epoch_window.specs.Later.{IsLater, later_refl, later_trans, told_same};
    ghost use Rattle.std.proofs.Common.{refl, ◌∙◌};

    ghost changes = { λ window. told_from window.epoch window.from window.hot.now };

    ghost first_step = { λ window. window.end };

    ghost next_number = { λ window. window.next };

    ghost faults = { λ window. window.hot.now.faults };

    ghost later = { λ first then. (then.hot.ghost_name ≡ first.hot.ghost_name)
        × IsLater first.hot.now then.hot.now × (then.epoch ≡ first.epoch) × (then.end ≡ first.end)
        × (then.from ≡ first.from) × (then.next ≡ first.next) };

    ghost later_self = { λ window. (refl, later_refl window.hot.now, refl, refl, refl, refl) };

    ghost later_chain = { λ first then last l m. (
      m.0 ∙ l.0,
      later_trans first.hot.now then.hot.now last.hot.now l.1 m.1,
      m.2 ∙ l.2,
      m.3 ∙ l.3,
      m.4 ∙ l.4,
      m.5 ∙ l.5,
    ) };

    ghost same_changes = { λ first then l.
        told_same first.hot.now then.hot.now first.epoch then.epoch first.from then.from l.1 l.2 l.4 };

    ghost same_step = { λ first then l. l.3 };

    ghost same_number = { λ first then l. l.5 };

    ghost no_fall = { λ first then l. l.1.no_fall };

    fn end(&self) -> u64 {
        self.end
    }

    fn at(&self) -> u64 {
        self.next
    }

    fn last(
        &mut self,
        alloc: Global,
        entity: Entity,
        key: &[u8],
        before: u64,
    ) -> Result<Option<Act>, ReadError> {
        Ok(
            self.hot
                .last(alloc, self.epoch, entity, key, self.from, before)?,
        )
    }

    fn times(
        &mut self,
        alloc: Global,
        entity: Entity,
        key: &[u8],
        from: u64,
        to: u64,
        back: bool,
        limit: usize,
    ) -> Result<Numbers, ReadError> {
        let first = later_start(from, self.from);
        Ok(
            self.hot
                .times(alloc, self.epoch, entity, key, first, to, back, limit)?,
        )
    }

    fn keys(
        &mut self,
        alloc: Global,
        entity: Entity,
        from: &[u8],
        tx_from: u64,
        tx_to: u64,
        limit: usize,
    ) -> Result<Keys, ReadError> {
        let first = later_start(tx_from, self.from);
        Ok(
            self.hot
                .keys(alloc, self.epoch, entity, from, first, tx_to, limit)?,
        )
    }
}
