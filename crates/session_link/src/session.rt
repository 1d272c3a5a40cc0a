//! A session between two lines, and what each line makes of it.
ghost use Rattle.std.specs.Prelude.{◌≡◌, ℕ, ◌+◌, ◌<◌, ◌≤◌, ◌^◌, Some, IfOk, OnOk, OnErr, IsTrue};
ghost use Rattle.agg_model.specs.Batch.{IsKey, HasValue, fits_entity};
ghost use Rattle.agg_core.specs.Names.{complete_steps};
ghost use Rattle.line_words.specs.Requests.{IsRequest, request_of};
ghost use Rattle.line_words.specs.declared.reply.Reply.TheVariants as says;
ghost use Rattle.merge_ranges.specs.declared.name.FileName.{FileName};
ghost use Rattle.visible_files.specs.Held.{count_of, named_once};
ghost use Rattle.state_store.specs.Store.{ArePinned, Goes, set_of, steps_held};
ghost use Rattle.session_link.specs.declared.limits.Limits.{Limits as TheLimits};
ghost use Rattle.session_link.specs.declared.link.Transaction.{Transaction};
ghost use Rattle.session_link.specs.Links.{OpensNow, open_of, views_of};
ghost use Rattle.session_link.specs.State.{State, outcome, number_on, change_on, batch_refusal, commit_on, open_on, close_on};
ghost use Rattle.session_link.specs.State.{settle_on, list_at};
ghost use Rattle.session_link.specs.Effects.{short_effect, read_outcome};
ghost use Rattle.session_link.specs.Running.{IsSession, Stands, Answers, HasEffect, EndsAt, StillHas, KeepsDevices};

use crate::limits::Limits;
use crate::link::{Link, Transaction};
use agg_model::{Act, Batch, Change, Entity, STEPS_MOST};
use agg_outside::{Bytes, Disk, Keeper, Memory};
use line_words::{LineError, Reply, Request};
use state_store::{Stop, Store, store_laws};
use std::alloc::Global;
use std::rt::Clock;
use std::sync::Wait;
use std::thread::Threads;

/// The accepted changes, and what the link keeps beside them.
#[derive(Drop)]
pub struct Session<D: Disk, K: Keeper> {
    pub store: Store<D, K>,
    pub link: Link,
}

impl<D: Disk, K: Keeper> Session<D, K> {
    /// `tx N`
    pub fn set_number(&mut self, number: u64) -> Reply
        requires { self.old.store.size ≤ 2 ^ 32 }
        ensures sound { (limits : TheLimits) → IsSession limits self.old → IsSession limits self.new }
        ensures opens { self.new.link.opens ≤ self.old.link.opens + 1 }
        ensures exact { (s : State) → Stands D.Disk self.old s →
            Answers D.Disk self.new result (number_on number s) }
        ensures store { self.new.store ≡ self.old.store }
    {
        match self.link.set_number(number, STEPS_MOST * self.store.size()) {
            Ok(()) => Reply::Ok,
            Err(refusal) => refusal,
        }
    }

    /// `put E K V`, `del E K` and `mark E K`
    pub fn change(
        &mut self,
        limits: &Limits,
        entity: Entity,
        key: Bytes,
        act: Act,
    ) -> Result<Reply, Memory>
        requires limit { limits.now.content ≤ 2 ^ 28 }
        requires sound { IsSession limits.now self.old }
        requires entity { IsTrue (fits_entity entity act) }
        requires key { IsKey key }
        requires value { HasValue act }
        ensures sound { IsSession limits.now self.old → IsSession limits.now self.new }
        ensures opens { self.new.link.opens ≤ self.old.link.opens + 1 }
        ensures exact { (s : State) → Stands D.Disk self.old s →
            IfOk result (λ reply. Answers D.Disk self.new reply
            (change_on limits.now s.current entity key act s)) }
        ensures store { self.new.store ≡ self.old.store }
    {
        let Some(tx) = self.link.current else {
            return Ok(Reply::ErrNotx);
        };
        let change = Change {
            tx,
            entity,
            key,
            act,
        };
        if self.link.add(change, limits)? {
            Ok(Reply::Ok)
        } else {
            Ok(Reply::ErrLimit)
        }
    }

    /// `commit`
    pub fn commit(&mut self, alloc: Global, limits: &Limits) -> Result<Reply, Stop>
        requires limit { limits.now.content ≤ 2 ^ 28 }
        requires sound { IsSession limits.now self.old }
        requires epoch { self.old.store.hot.epoch < 2 ^ 62 }
        ensures sound { IsSession limits.now self.old → IsSession limits.now self.new }
        ensures opens { self.new.link.opens ≤ self.old.link.opens + 1 }
        ensures exact { (s : State) → Stands D.Disk self.old s →
            IfOk result (λ reply. Answers D.Disk self.new reply (commit_on limits.now s)) }
        // What is answered otherwise is refused, and leaves the store as it was.
        ensures refused { IfOk result (λ reply. ((changes next : ℕ) → reply ≡ says.Committed changes next → ⊥) →
            self.new.store ≡ self.old.store) }
        ensures err { (s : State) → Stands D.Disk self.old s →
            OnErr result (StillHas D.Disk self.new.store s.list) }
        ensures devices { KeepsDevices D.Disk self.old.store self.new.store result }
    {
        let pending = self.link.clear(alloc);
        let next = self.store.next();
        if let Some(refusal) = batch_refusal(next, &pending) {
            return Ok(refusal);
        }
        let Some(accepted) = self.store.accept(alloc, limits.content, pending)? else {
            return Ok(Reply::ErrLimit);
        };
        Ok(Reply::Committed(accepted.changes, accepted.next))
    }

    /// `open`
    pub fn open_transaction(&mut self, limits: &Limits) -> Result<Reply, Stop>
        requires { self.old.link.opens < 2 ^ 63 }
        ensures sound { IsSession limits.now self.old → IsSession limits.now self.new }
        ensures opens { self.new.link.opens ≤ self.old.link.opens + 1 }
        ensures exact { (s : State) → Stands D.Disk self.old s →
            IfOk result (λ reply. Answers D.Disk self.new reply (open_on limits.now s)) }
        // The new transaction reads the groups that are visible now, at the present epoch and below the next number.
        ensures view { (n m : ℕ) → IfOk result (λ reply. reply ≡ says.Opened n m →
            OpensNow self.old.store (self.old.link.opens + 1) self.old.link.transactions self.new.link.transactions) }
        ensures store { self.new.store ≡ record self.old.store { sets = self.new.store.sets } }
        ensures err { (s : State) → Stands D.Disk self.old s → OnErr result (StillHas D.Disk self.new.store s.list) }
        ensures devices { KeepsDevices D.Disk self.old.store self.new.store result }
    {
        if self.link.is_full(limits) {
            return Ok(Reply::ErrOpen(limits.opens));
        }
        let view = self.store.open()?;
        let next = view.next();
        // For want of memory here the view's files stay pinned: the session ends then.
        let number = self.link.open_transaction(view)?;
        Ok(Reply::Opened(number, next))
    }

    /// `close T`
    pub fn close_transaction(&mut self, number: u64) -> Reply
        requires { ArePinned self.old.store.sets.held (views_of self.old.link.transactions) }
        ensures sound { (limits : TheLimits) → IsSession limits self.old → IsSession limits self.new }
        ensures opens { self.new.link.opens ≤ self.old.link.opens + 1 }
        ensures exact { (s : State) → Stands D.Disk self.old s →
            Answers D.Disk self.new result (close_on number (list_at number s.transactions) s) }
        ensures store { self.new.store ≡ record self.old.store { sets = self.new.store.sets } }
        // The groups that it pinned are counted once less, and no others.
        ensures unpins { (t : Transaction) → Some t ≡ open_of number self.old.link.transactions → (n : FileName) →
            count_of self.new.store.sets.held n + named_once (set_of t.view).ids n
            ≡ count_of self.old.store.sets.held n }
        ensures goes { Goes D.Disk self.old.store self.new.store }
    {
        let Some(transaction) = self.link.close_transaction(number) else {
            return Reply::ErrTx(number);
        };
        let Transaction { view, .. } = transaction;
        self.store.close(view);
        Reply::Ok
    }

    /// `settle`
    pub fn settle<H: Threads + Wait + Clock + Sync>(
        &mut self,
        rt: &H,
        alloc: Global,
    ) -> Result<Reply, Stop>
        requires sound { (limits : TheLimits) × IsSession limits self.old × (limits.content ≤ 2 ^ 28) }
        ensures sound { (limits : TheLimits) → IsSession limits self.old → IsSession limits self.new }
        ensures opens { self.new.link.opens ≤ self.old.link.opens + 1 }
        ensures exact { (s : State) → Stands D.Disk self.old s →
            IfOk result (λ reply. Answers D.Disk self.new reply (settle_on s)) }
        // All complete steps are in files then.
        ensures all { (s : State) → Stands D.Disk self.old s →
            OnOk result (steps_held self.new.store ≡ complete_steps s.list) }
        ensures err { (s : State) → Stands D.Disk self.old s →
            OnErr result (StillHas D.Disk self.new.store s.list) }
        ensures devices { KeepsDevices D.Disk self.old.store self.new.store result }
    {
        self.store.settle(rt, alloc)?;
        store_laws(&self.store);
        Ok(Reply::Files(self.store.names(alloc)?))
    }

    /// Works on a request, and answers its reply.
    pub fn request<H: Threads + Wait + Clock + Sync>(
        &mut self,
        rt: &H,
        alloc: Global,
        limits: &Limits,
        request: Request,
    ) -> Result<Reply, Stop>
        requires limit { limits.now.content ≤ 2 ^ 28 }
        requires sound { IsSession limits.now self.old }
        requires opens { self.old.link.opens < 2 ^ 63 }
        requires epoch { self.old.store.hot.epoch < 2 ^ 62 }
        requires fits { IsRequest request }
        ensures sound { IsSession limits.now self.new }
        ensures opens { self.new.link.opens ≤ self.old.link.opens + 1 }
        ensures exact { (s : State) → Stands D.Disk self.old s →
            IfOk result (λ reply. Answers D.Disk self.new reply (outcome limits.now request s)) }
        ensures err { (s : State) → Stands D.Disk self.old s →
            OnErr result (StillHas D.Disk self.new.store s.list) }
        ensures devices { KeepsDevices D.Disk self.old.store self.new.store result }
    {
        match request {
            Request::Tx(n) => Ok(self.set_number(n)),
            Request::Put(e, k, v) => Ok(self.change(limits, e, k, Act::Put(v))?),
            Request::Del(e, k) => Ok(self.change(limits, e, k, Act::Del)?),
            Request::Mark(e, k) => Ok(self.change(limits, e, k, Act::Mark)?),
            Request::Commit => self.commit(alloc, limits),
            Request::Open => self.open_transaction(limits),
            Request::Close(tx) => Ok(self.close_transaction(tx)),
            Request::Latest(tx, e, k) => self.latest(alloc, tx, e, k.as_slice()),
            Request::Asof(tx, e, n, k) => self.as_of(alloc, tx, e, n, k.as_slice()),
            Request::Range(tx, e, n, from, to, limit) => {
                self.range(alloc, tx, e, n, &from, &to, limit)
            }
            Request::History(tx, e, a, b, from, limit) => {
                self.history(alloc, tx, e, a, b, &from, limit)
            }
            Request::Index(tx, e, k, a, b, descends, limit) => {
                self.index(alloc, tx, e, k.as_slice(), a, b, descends, limit)
            }
            Request::Settle => self.settle(rt, alloc),
        }
    }

    // The reply to a line within the limit that isn't empty.
    fn read<H: Threads + Wait + Clock + Sync>(
        &mut self,
        rt: &H,
        alloc: Global,
        limits: &Limits,
        number: u64,
        line: &[u8],
    ) -> Result<Reply, Stop>
        requires limit { limits.now.content ≤ 2 ^ 28 }
        requires sound { IsSession limits.now self.old }
        requires opens { self.old.link.opens < 2 ^ 63 }
        requires epoch { self.old.store.hot.epoch < 2 ^ 62 }
        ensures sound { IsSession limits.now self.new }
        ensures opens { self.new.link.opens ≤ self.old.link.opens + 1 }
        ensures exact { (s : State) → Stands D.Disk self.old s →
            IfOk result (λ reply. Answers D.Disk self.new reply (read_outcome limits.now number
            (request_of line.now) s)) }
        ensures err { (s : State) → Stands D.Disk self.old s →
            OnErr result (StillHas D.Disk self.new.store s.list) }
        ensures devices { KeepsDevices D.Disk self.old.store self.new.store result }
    {
        match Request::read(alloc, line) {
            Ok(request) => self.request(rt, alloc, limits, request),
            Err(LineError::Syntax) => Ok(Reply::ErrSyntax(number)),
            Err(LineError::Length(length)) => Ok(Reply::ErrLength(length)),
            Err(LineError::Entity) => Ok(Reply::ErrEntity),
            Err(LineError::Memory) => Err(Stop::Memory),
        }
    }

    /// Works on a line without its line end, and answers the text of its reply: no bytes for an
    /// empty line.
    pub fn line<H: Threads + Wait + Clock + Sync>(
        &mut self,
        rt: &H,
        alloc: Global,
        limits: &Limits,
        number: u64,
        line: &[u8],
    ) -> Result<Bytes, Stop>
        requires limit { limits.now.content ≤ 2 ^ 28 }
        requires sound { IsSession limits.now self.old }
        requires opens { self.old.link.opens < 2 ^ 63 }
        requires epoch { self.old.store.hot.epoch < 2 ^ 62 }
        ensures sound { IsSession limits.now self.new }
        ensures opens { self.new.link.opens ≤ self.old.link.opens + 1 }
        ensures exact { (s : State) → Stands D.Disk self.old s →
            IfOk result (λ text. HasEffect D.Disk self.new text (short_effect limits.now number line.now s)) }
        ensures err { (s : State) → Stands D.Disk self.old s →
            OnErr result (EndsAt D.Disk self.new.store s.list
            (short_effect limits.now number line.now s).state.list) }
        ensures devices { KeepsDevices D.Disk self.old.store self.new.store result }
    {
        if line.is_empty() {
            return Ok(Bytes::of(alloc, &[])?);
        }
        let reply = self.read(rt, alloc, limits, number, line)?;
        Ok(reply.print(alloc)?)
    }
}

// Why the pending changes can't come behind the numbers below `next`.
fn batch_refusal(next: u64, pending: &Batch) -> Option<Reply>
    ensures { result ≡ batch_refusal next pending.now }
{
    let Some(first) = pending.get(0) else {
        return Some(Reply::ErrEmpty);
    };
    if first.tx < next {
        return Some(Reply::ErrOrder(next - 1, first.tx));
    }
    None
}
