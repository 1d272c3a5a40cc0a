//! What an open transaction reads: of the store no more than its own view sees.
ghost use Rattle.std.specs.Prelude.{◌≡◌, ◌+◌, ◌≤◌, All, IfOk, OnErr};
ghost use Rattle.std.specs.Option.{option_copied};
ghost use Rattle.collate_step.specs.Groups.{IsDomain};
ghost use Rattle.state_store.specs.Store.{HasView};
ghost use Rattle.session_link.specs.declared.limits.Limits.{Limits as TheLimits};
ghost use Rattle.session_link.specs.State.{State, list_at, read_on, value_reply, rows_reply, times_reply};
ghost use Rattle.session_link.specs.State.{latest_reply, as_of_reply, range_reply, history_reply, index_reply};
ghost use Rattle.session_link.specs.State.{first_number, end_number};
ghost use Rattle.session_link.specs.Running.{IsSession, Stands, Answers, KeepsDevices, ReadsOwnView, StillHas};

use crate::session::Session;
use agg_model::Entity;
use agg_outside::{Bytes, Disk, Keeper};
use line_words::Reply;
use state_store::Stop;
use std::alloc::Global;
use window_pages::Page;
use window_reads::TimesPage;

impl<D: Disk, K: Keeper> Session<D, K> {
    /// `latest T E K`
    pub fn latest(
        &mut self,
        alloc: Global,
        number: u64,
        entity: Entity,
        key: &[u8],
    ) -> Result<Reply, Stop>
        requires views { All (λ t. HasView self.old.store t.view) self.old.link.transactions }
        requires domain { IsDomain entity }
        ensures sound { (limits : TheLimits) → IsSession limits self.old → IsSession limits self.new }
        ensures opens { self.new.link.opens ≤ self.old.link.opens + 1 }
        ensures exact { (s : State) → Stands D.Disk self.old s →
            IfOk result (λ reply. Answers D.Disk self.new reply
            (read_on number (list_at number s.transactions) (latest_reply entity key.now) s)) }
        ensures own { ReadsOwnView self.old number (latest_reply entity key.now) result }
        ensures err { (s : State) → Stands D.Disk self.old s → OnErr result (StillHas D.Disk self.new.store s.list) }
        ensures devices { KeepsDevices D.Disk self.old.store self.new.store result }
    {
        let Some(opened) = self.link.transaction(number) else {
            return Ok(Reply::ErrTx(number));
        };
        let value = self.store.latest(alloc, &opened.view, entity, key)?;
        Ok(value_reply(value))
    }

    /// `asof T E N K`
    pub fn as_of(
        &mut self,
        alloc: Global,
        number: u64,
        entity: Entity,
        n: u64,
        key: &[u8],
    ) -> Result<Reply, Stop>
        requires views { All (λ t. HasView self.old.store t.view) self.old.link.transactions }
        requires domain { IsDomain entity }
        ensures sound { (limits : TheLimits) → IsSession limits self.old → IsSession limits self.new }
        ensures opens { self.new.link.opens ≤ self.old.link.opens + 1 }
        ensures exact { (s : State) → Stands D.Disk self.old s →
            IfOk result (λ reply. Answers D.Disk self.new reply
            (read_on number (list_at number s.transactions) (as_of_reply entity n key.now) s)) }
        ensures own { ReadsOwnView self.old number (as_of_reply entity n key.now) result }
        ensures err { (s : State) → Stands D.Disk self.old s → OnErr result (StillHas D.Disk self.new.store s.list) }
        ensures devices { KeepsDevices D.Disk self.old.store self.new.store result }
    {
        let Some(opened) = self.link.transaction(number) else {
            return Ok(Reply::ErrTx(number));
        };
        let value = self.store.as_of(alloc, &opened.view, entity, n, key)?;
        Ok(value_reply(value))
    }

    /// `range T E N FROM TO LIMIT`
    pub fn range(
        &mut self,
        alloc: Global,
        number: u64,
        entity: Entity,
        n: u64,
        from: &Option<Bytes>,
        to: &Option<Bytes>,
        limit: u64,
    ) -> Result<Reply, Stop>
        requires views { All (λ t. HasView self.old.store t.view) self.old.link.transactions }
        requires domain { IsDomain entity }
        requires limit { limit ≤ 1000 }
        ensures sound { (limits : TheLimits) → IsSession limits self.old → IsSession limits self.new }
        ensures opens { self.new.link.opens ≤ self.old.link.opens + 1 }
        ensures exact { (s : State) → Stands D.Disk self.old s →
            IfOk result (λ reply. Answers D.Disk self.new reply
            (read_on number (list_at number s.transactions) (range_reply entity n from.now to.now limit) s)) }
        ensures own { ReadsOwnView self.old number (range_reply entity n from.now to.now limit) result }
        ensures err { (s : State) → Stands D.Disk self.old s → OnErr result (StillHas D.Disk self.new.store s.list) }
        ensures devices { KeepsDevices D.Disk self.old.store self.new.store result }
    {
        let Some(opened) = self.link.transaction(number) else {
            return Ok(Reply::ErrTx(number));
        };
        let from = bytes_of(from);
        let to = bytes_of(to);
        let limit = limit as usize;
        let page = self
            .store
            .range(alloc, &opened.view, entity, n, from, to, limit)?;
        Ok(rows_reply(page))
    }

    /// `history T E A B FROM LIMIT`
    pub fn history(
        &mut self,
        alloc: Global,
        number: u64,
        entity: Entity,
        a: Option<u64>,
        b: Option<u64>,
        from: &Option<Bytes>,
        limit: u64,
    ) -> Result<Reply, Stop>
        requires views { All (λ t. HasView self.old.store t.view) self.old.link.transactions }
        requires domain { IsDomain entity }
        requires limit { limit ≤ 1000 }
        ensures sound { (limits : TheLimits) → IsSession limits self.old → IsSession limits self.new }
        ensures opens { self.new.link.opens ≤ self.old.link.opens + 1 }
        ensures exact { (s : State) → Stands D.Disk self.old s →
            IfOk result (λ reply. Answers D.Disk self.new reply
            (read_on number (list_at number s.transactions) (history_reply entity a b from.now limit) s)) }
        ensures own { ReadsOwnView self.old number (history_reply entity a b from.now limit) result }
        ensures err { (s : State) → Stands D.Disk self.old s → OnErr result (StillHas D.Disk self.new.store s.list) }
        ensures devices { KeepsDevices D.Disk self.old.store self.new.store result }
    {
        let Some(opened) = self.link.transaction(number) else {
            return Ok(Reply::ErrTx(number));
        };
        let a = first_number(a);
        let b = end_number(b);
        let from = bytes_of(from);
        let limit = limit as usize;
        let page = self
            .store
            .history(alloc, &opened.view, entity, a, b, from, limit)?;
        Ok(rows_reply(page))
    }

    /// `index T E K A B asc LIMIT`, or with `desc`
    pub fn index(
        &mut self,
        alloc: Global,
        number: u64,
        entity: Entity,
        key: &[u8],
        a: Option<u64>,
        b: Option<u64>,
        descends: bool,
        limit: u64,
    ) -> Result<Reply, Stop>
        requires views { All (λ t. HasView self.old.store t.view) self.old.link.transactions }
        requires limit { limit ≤ 1000 }
        ensures sound { (limits : TheLimits) → IsSession limits self.old → IsSession limits self.new }
        ensures opens { self.new.link.opens ≤ self.old.link.opens + 1 }
        ensures exact { (s : State) → Stands D.Disk self.old s →
            IfOk result (λ reply. Answers D.Disk self.new reply
            (read_on number (list_at number s.transactions) (index_reply entity key.now a b descends limit) s)) }
        ensures own { ReadsOwnView self.old number (index_reply entity key.now a b descends limit) result }
        ensures err { (s : State) → Stands D.Disk self.old s → OnErr result (StillHas D.Disk self.new.store s.list) }
        ensures devices { KeepsDevices D.Disk self.old.store self.new.store result }
    {
        let Some(opened) = self.link.transaction(number) else {
            return Ok(Reply::ErrTx(number));
        };
        let a = first_number(a);
        let b = end_number(b);
        let limit = limit as usize;
        let page = self
            .store
            .index(alloc, &opened.view, entity, key, a, b, descends, limit)?;
        Ok(times_reply(page))
    }
}

fn value_reply(value: Option<Bytes>) -> Reply
    ensures { result ≡ value_reply value }
{
    match value {
        Some(value) => Reply::Value(value),
        None => Reply::NoValue,
    }
}

fn rows_reply(page: Page) -> Reply
    ensures { result ≡ rows_reply (page.rows, page.more) }
{
    let Page { rows, more } = page;
    Reply::Rows(rows, more)
}

fn times_reply(page: TimesPage) -> Reply
    ensures { result ≡ times_reply (page.items, page.more) }
{
    let TimesPage { items, more } = page;
    Reply::Times(items, more)
}

// The bytes of a bound, where there is one.
fn bytes_of(bound: &Option<Bytes>) -> Option<&[u8]>
    ensures { option_copied result ≡ bound.now }
{
    match bound {
        Some(key) => Some(key.as_slice()),
        None => None,
    }
}

// No number is the first one.
fn first_number(a: Option<u64>) -> u64
    ensures { result ≡ first_number a }
{
    a.unwrap_or(0)
}

// No number is the one above all.
fn end_number(b: Option<u64>) -> u64
    ensures { result ≡ end_number b }
{
    b.unwrap_or(1 << 63)
}
