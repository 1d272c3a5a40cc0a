//! What a view reads: its own groups, and the rows that its epoch sees behind them.
ghost use Rattle.std.specs.Prelude.{◌≡◌, ◌≤◌, IfOk, IsErrOf};
ghost use Rattle.std.specs.Option.{option_copied};
ghost use Rattle.agg_model.specs.ChangeList.{ChangeList, latest, as_of};
ghost use Rattle.agg_model.specs.Listed.{index, range, history, limited};
ghost use Rattle.collate_step.specs.Groups.{IsDomain};
ghost use Rattle.state_store.specs.Store.{Sees, HasView, Goes, HasCauses};

use crate::looking::{changes_in, latest_in, numbers_in, value_in, values_in};
use crate::stop::Stop;
use crate::store::Store;
use crate::view::View;
use agg_model::Entity;
use agg_outside::{Bytes, Disk, Keeper};
use std::alloc::Global;
use window_pages::Page;
use window_reads::TimesPage;

impl<D: Disk, K: Keeper> Store<D, K> {
    /// The value of a key of a domain, as the view has it.
    pub fn latest(
        &mut self,
        alloc: Global,
        view: &View,
        entity: Entity,
        key: &[u8],
    ) -> Result<Option<Bytes>, Stop>
        requires view { HasView self.old view.now }
        ensures value { (list : ChangeList) → Sees self.old.hot self.old.size view.now list → IsDomain entity →
            IfOk result (λ value. value ≡ latest list entity key.now) }
        ensures same { self.new ≡ record self.old { hot = record self.old.hot { faults = self.new.hot.faults } } }
        ensures goes { Goes D.Disk self.old self.new }
        ensures causes { HasCauses D.Disk self.old self.new result }
        ensures unworn { IsErrOf result Stop.Worn → ⊥ }
    {
        let size = self.size;
        Ok(latest_in(alloc, &mut self.hot, view, size, entity, key)?)
    }

    /// The value of a key of a domain just before the number `n`.
    pub fn as_of(
        &mut self,
        alloc: Global,
        view: &View,
        entity: Entity,
        n: u64,
        key: &[u8],
    ) -> Result<Option<Bytes>, Stop>
        requires view { HasView self.old view.now }
        ensures value { (list : ChangeList) → Sees self.old.hot self.old.size view.now list → IsDomain entity →
            IfOk result (λ value. value ≡ as_of list entity key.now n) }
        ensures same { self.new ≡ record self.old { hot = record self.old.hot { faults = self.new.hot.faults } } }
        ensures goes { Goes D.Disk self.old self.new }
        ensures causes { HasCauses D.Disk self.old self.new result }
        ensures unworn { IsErrOf result Stop.Worn → ⊥ }
    {
        let size = self.size;
        Ok(value_in(alloc, &mut self.hot, view, size, entity, n, key)?)
    }

    /// The first `limit` numbers from `a` on and below `b` at which a key changed, from the last one down where `back`.
    pub fn index(
        &mut self,
        alloc: Global,
        view: &View,
        entity: Entity,
        key: &[u8],
        a: u64,
        b: u64,
        back: bool,
        limit: usize,
    ) -> Result<TimesPage, Stop>
        requires view { HasView self.old view.now }
        requires limit { limit ≤ 1000 }
        ensures page { (list : ChangeList) → Sees self.old.hot self.old.size view.now list →
            IfOk result (λ page. (page.items, page.more)
            ≡ limited (λ t. t) limit (index list.changes entity key.now a b back)) }
        ensures same { self.new ≡ record self.old { hot = record self.old.hot { faults = self.new.hot.faults } } }
        ensures goes { Goes D.Disk self.old self.new }
        ensures causes { HasCauses D.Disk self.old self.new result }
        ensures unworn { IsErrOf result Stop.Worn → ⊥ }
    {
        let size = self.size;
        Ok(numbers_in(
            alloc,
            &mut self.hot,
            view,
            size,
            entity,
            key,
            a,
            b,
            back,
            limit,
        )?)
    }

    /// The keys of a domain from one on and under another, where there are such bounds, that have a value just before
    /// `n`, each with that value: the first `limit` of them.
    pub fn range(
        &mut self,
        alloc: Global,
        view: &View,
        entity: Entity,
        n: u64,
        from: Option<&[u8]>,
        to: Option<&[u8]>,
        limit: usize,
    ) -> Result<Page, Stop>
        requires view { HasView self.old view.now }
        ensures page { (list : ChangeList) → Sees self.old.hot self.old.size view.now list → IsDomain entity →
            IfOk result (λ page. (page.rows, page.more) ≡ limited (λ r. r.key) limit
            (range list.changes entity n (option_copied from.entry) (option_copied to.entry))) }
        ensures same { self.new ≡ record self.old { hot = record self.old.hot { faults = self.new.hot.faults } } }
        ensures goes { Goes D.Disk self.old self.new }
        ensures causes { HasCauses D.Disk self.old self.new result }
        ensures unworn { IsErrOf result Stop.Worn → ⊥ }
    {
        let size = self.size;
        Ok(values_in(alloc, &mut self.hot, view, size, entity, n, from, to, limit)?)
    }

    /// The keys of a domain from one on, where there is such a bound, that changed from `a` on and below `b`, each with
    /// its value just before `a`: the first `limit` of them.
    pub fn history(
        &mut self,
        alloc: Global,
        view: &View,
        entity: Entity,
        a: u64,
        b: u64,
        from: Option<&[u8]>,
        limit: usize,
    ) -> Result<Page, Stop>
        requires view { HasView self.old view.now }
        ensures page { (list : ChangeList) → Sees self.old.hot self.old.size view.now list → IsDomain entity →
            IfOk result (λ page. (page.rows, page.more) ≡ limited (λ r. r.key) limit
            (history list.changes entity a b (option_copied from.entry))) }
        ensures same { self.new ≡ record self.old { hot = record self.old.hot { faults = self.new.hot.faults } } }
        ensures goes { Goes D.Disk self.old self.new }
        ensures causes { HasCauses D.Disk self.old self.new result }
        ensures unworn { IsErrOf result Stop.Worn → ⊥ }
    {
        let size = self.size;
        Ok(changes_in(alloc, &mut self.hot, view, size, entity, a, b, from, limit)?)
    }
}
