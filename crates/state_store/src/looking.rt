//! The reads of a view over hot rows.
ghost use Rattle.std.specs.Prelude.{◌≡◌, ◌*◌, ◌≤◌, IfOk};
ghost use Rattle.std.specs.Option.{option_copied};
ghost use Rattle.agg_outside.specs.Counts.{HasCause};
ghost use Rattle.agg_model.specs.ChangeList.{ChangeList, latest, as_of};
ghost use Rattle.agg_model.specs.Listed.{index, range, history, limited};
ghost use Rattle.collate_step.specs.Groups.{IsDomain};
ghost use Rattle.epoch_window.specs.Later.{IsLater};
ghost use Rattle.state_store.specs.Store.{Sees, set_of};

use crate::view::View;
use agg_model::Entity;
use agg_outside::{Bytes, Keeper};
use epoch_window::EpochWindow;
use hot_keeper::{Hot, ReadError};
use std::alloc::Global;
use window_pages::{Page, read_history, read_range};
use window_reads::{TimesPage, read_as_of, read_index, read_latest};

// The rows behind the view's groups, as its epoch sees them.
fn window_of<'a, K: Keeper>(hot: &'a mut Hot<K>, view: &View, size: u64) -> EpochWindow<'a, K>
    requires { (set_of view.now).end * size ≤ view.now.next }
    ensures same_reference { result.hot.ghost_name ≡ hot.entry.ghost_name }
    ensures hot { result.hot.now ≡ hot.old }
    ensures epoch { result.epoch ≡ view.now.epoch }
    ensures end { result.end ≡ (set_of view.now).end }
    ensures from { result.from ≡ (set_of view.now).end * size }
    ensures next { result.next ≡ view.now.next }
{
    let next = view.next;
    EpochWindow::of(hot, view.epoch, view.set.end(), size, next)
}

pub(crate) fn latest_in<K: Keeper>(
    alloc: Global,
    hot: &mut Hot<K>,
    view: &View,
    size: u64,
    entity: Entity,
    key: &[u8],
) -> Result<Option<Bytes>, ReadError>
    requires view { (set_of view.now).end * size ≤ view.now.next }
    ensures value { (list : ChangeList) → Sees hot.old size view.now list → IsDomain entity →
        IfOk result (λ value. value ≡ latest list entity key.now) }
    ensures later { IsLater hot.old hot.new }
    ensures cause { HasCause ReadError.Keeper hot.old.faults hot.new.faults result }
{
    let mut window = window_of(hot, view, size);
    read_latest(alloc, view.set.groups(), &mut window, size, entity, key)
}

pub(crate) fn value_in<K: Keeper>(
    alloc: Global,
    hot: &mut Hot<K>,
    view: &View,
    size: u64,
    entity: Entity,
    n: u64,
    key: &[u8],
) -> Result<Option<Bytes>, ReadError>
    requires view { (set_of view.now).end * size ≤ view.now.next }
    ensures value { (list : ChangeList) → Sees hot.old size view.now list → IsDomain entity →
        IfOk result (λ value. value ≡ as_of list entity key.now n) }
    ensures later { IsLater hot.old hot.new }
    ensures cause { HasCause ReadError.Keeper hot.old.faults hot.new.faults result }
{
    let mut window = window_of(hot, view, size);
    read_as_of(alloc, view.set.groups(), &mut window, size, entity, n, key)
}

pub(crate) fn numbers_in<K: Keeper>(
    alloc: Global,
    hot: &mut Hot<K>,
    view: &View,
    size: u64,
    entity: Entity,
    key: &[u8],
    a: u64,
    b: u64,
    back: bool,
    limit: usize,
) -> Result<TimesPage, ReadError>
    requires view { (set_of view.now).end * size ≤ view.now.next }
    requires limit { limit ≤ 1000 }
    ensures page { (list : ChangeList) → Sees hot.old size view.now list →
        IfOk result (λ page. (page.items, page.more)
        ≡ limited (λ t. t) limit (index list.changes entity key.now a b back)) }
    ensures later { IsLater hot.old hot.new }
    ensures cause { HasCause ReadError.Keeper hot.old.faults hot.new.faults result }
{
    let mut window = window_of(hot, view, size);
    read_index(
        alloc,
        view.set.groups(),
        &mut window,
        size,
        entity,
        key,
        a,
        b,
        back,
        limit,
    )
}

pub(crate) fn values_in<K: Keeper>(
    alloc: Global,
    hot: &mut Hot<K>,
    view: &View,
    size: u64,
    entity: Entity,
    n: u64,
    from: Option<&[u8]>,
    to: Option<&[u8]>,
    limit: usize,
) -> Result<Page, ReadError>
    requires view { (set_of view.now).end * size ≤ view.now.next }
    ensures page { (list : ChangeList) → Sees hot.old size view.now list → IsDomain entity →
        IfOk result (λ page. (page.rows, page.more) ≡ limited (λ r. r.key) limit
        (range list.changes entity n (option_copied from.entry) (option_copied to.entry))) }
    ensures later { IsLater hot.old hot.new }
    ensures cause { HasCause ReadError.Keeper hot.old.faults hot.new.faults result }
{
    let mut window = window_of(hot, view, size);
    read_range(
        alloc,
        view.set.groups(),
        &mut window,
        size,
        entity,
        n,
        from,
        to,
        limit,
    )
}

pub(crate) fn changes_in<K: Keeper>(
    alloc: Global,
    hot: &mut Hot<K>,
    view: &View,
    size: u64,
    entity: Entity,
    a: u64,
    b: u64,
    from: Option<&[u8]>,
    limit: usize,
) -> Result<Page, ReadError>
    requires view { (set_of view.now).end * size ≤ view.now.next }
    ensures page { (list : ChangeList) → Sees hot.old size view.now list → IsDomain entity →
        IfOk result (λ page. (page.rows, page.more) ≡ limited (λ r. r.key) limit
        (history list.changes entity a b (option_copied from.entry))) }
    ensures later { IsLater hot.old hot.new }
    ensures cause { HasCause ReadError.Keeper hot.old.faults hot.new.faults result }
{
    let mut window = window_of(hot, view, size);
    read_history(
        alloc,
        view.set.groups(),
        &mut window,
        size,
        entity,
        a,
        b,
        from,
        limit,
    )
}
