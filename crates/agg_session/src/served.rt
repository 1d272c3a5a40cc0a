//! A text that comes in pieces: each line is answered before the next is worked on.
ghost use Rattle.std.specs.Prelude.{◌≡◌, ◌<◌, ◌≤◌, ◌^◌, ◌+◌, ◌++◌, [], ℕ, List, length, IfOk, IfErr, OnOk, OnErr};
ghost use Rattle.std.specs.Prelude.{IfSome, IfNone, Option, None, is_some, true};
ghost use Rattle.std.specs.Bool.{OnTrue, OnFalse};
ghost use Rattle.line_words.specs.LineCut.{cut_of, next_cut, rest_cut, pieces_of};
ghost use Rattle.session_link.specs.State.{State};
ghost use Rattle.agg_session.specs.Ends.{IsBlamed, IsWant};
ghost use Rattle.agg_session.specs.Answer.{effect, ended_lines};
ghost use Rattle.session_link.specs.Running.{IsSession, Stands, HasEffect, EndsAt, KeepsDevices};
ghost use Rattle.agg_session.specs.Served.{IsServed, IsReplied, IsAnswered, HasAnswered, HasStopped};

use crate::ends::LinkEnd;
use crate::writing::put_all;
use agg_outside::{Bytes, Disk, Keeper, Sink};
use line_words::{Cutting, LineCut, Reply};
use session_link::{Limits, Session};
use state_store::Stop;
use std::alloc::Global;
use std::rt::Clock;
use std::sync::Wait;
use std::thread::Threads;

/// A session at work on a text.
#[derive(Drop)]
pub struct Served<D: Disk, K: Keeper> {
    pub cut: LineCut,
    pub session: Session<D, K>,
    /// How many lines were cut off, over-long and empty ones too.
    pub lines: u64,
}

impl<D: Disk, K: Keeper> Served<D, K> {
    // Answers the next line that has its line feed, and says whether there was one.
    fn answer_line<H: Threads + Wait + Clock + Sync, O: Sink>(
        &mut self,
        rt: &H,
        alloc: Global,
        limits: &Limits,
        sink: &mut O,
    ) -> Result<bool, LinkEnd>
        requires limit { limits.now.content ≤ 2 ^ 28 }
        requires lines { self.old.lines < 2 ^ 61 }
        requires sound { IsServed limits.now self.old }
        ensures sound { OnOk result (IsServed limits.now self.new) }
        ensures lines { self.new.lines + length self.new.cut.left ≤ self.old.lines + length self.old.cut.left }
        ensures shorter { IfOk result (λ found. OnTrue found (length self.new.cut.left < length self.old.cut.left)) }
        ensures none { IfOk result (λ found. OnFalse found ((next_cut self.new.cut).0 ≡ None)) }
        ensures answered { (start : State) (first : Option (List ℕ)) (text : List ℕ) →
            IsAnswered D.Disk limits.now self.old first (O.bytes sink.old) start text →
            OnOk result (IsAnswered D.Disk limits.now self.new first (O.bytes sink.new) start text) }
        ensures stopped { (start : State) (first : Option (List ℕ)) (text : List ℕ) →
            IsAnswered D.Disk limits.now self.old first (O.bytes sink.old) start text →
            OnErr result (HasStopped D.Disk limits.now self.new.session.store first (O.bytes sink.new) start
            (ended_lines limits.now.line text)) }
        ensures blamed { IsBlamed D.Disk O.Sink ⊥ self.old.session.store self.new.session.store sink.old
            sink.new result }
        ensures wants { IfErr result IsWant }
    {
        let number = self.lines + 1;
        let Some(text) = next_reply(rt, alloc, limits, number, &mut self.cut, &mut self.session)?
        else {
            return Ok(false);
        };
        self.lines = number;
        put_all(sink, text.as_slice())?;
        Ok(true)
    }

    // Answers all lines that have their line feed.
    fn answer_lines<H: Threads + Wait + Clock + Sync, O: Sink>(
        &mut self,
        rt: &H,
        alloc: Global,
        limits: &Limits,
        sink: &mut O,
    ) -> Result<(), LinkEnd>
        requires limit { limits.now.content ≤ 2 ^ 28 }
        requires lines { self.old.lines + length self.old.cut.left < 2 ^ 61 }
        requires sound { IsServed limits.now self.old }
        ensures sound { OnOk result (IsServed limits.now self.new) }
        ensures lines { self.new.lines + length self.new.cut.left ≤ self.old.lines + length self.old.cut.left }
        ensures none { OnOk result ((next_cut self.new.cut).0 ≡ None) }
        ensures answered { (start : State) (first : Option (List ℕ)) (text : List ℕ) →
            IsAnswered D.Disk limits.now self.old first (O.bytes sink.old) start text →
            OnOk result (IsAnswered D.Disk limits.now self.new first (O.bytes sink.new) start text) }
        ensures stopped { (start : State) (first : Option (List ℕ)) (text : List ℕ) →
            IsAnswered D.Disk limits.now self.old first (O.bytes sink.old) start text →
            OnErr result (HasStopped D.Disk limits.now self.new.session.store first (O.bytes sink.new) start
            (ended_lines limits.now.line text)) }
        ensures blamed { IsBlamed D.Disk O.Sink ⊥ self.old.session.store self.new.session.store sink.old
            sink.new result }
        ensures wants { IfErr result IsWant }
    {
        while self.answer_line(rt, alloc, limits, sink)? {}
        Ok(())
    }

    /// Takes the next piece of the text, and answers all lines that have their line feed.
    pub fn feed<H: Threads + Wait + Clock + Sync, O: Sink>(
        &mut self,
        rt: &H,
        alloc: Global,
        limits: &Limits,
        piece: &[u8],
        sink: &mut O,
    ) -> Result<(), LinkEnd>
        requires limit { limits.now.content ≤ 2 ^ 28 }
        requires lines { self.old.lines + length self.old.cut.left + length piece.now < 2 ^ 61 }
        requires sound { IsServed limits.now self.old }
        ensures sound { OnOk result (IsServed limits.now self.new) }
        ensures lines { self.new.lines + length self.new.cut.left ≤ self.old.lines + length self.old.cut.left + length
            piece.now }
        ensures none { OnOk result ((next_cut self.new.cut).0 ≡ None) }
        ensures answered { (start : State) (first : Option (List ℕ)) (text : List ℕ) →
            IsAnswered D.Disk limits.now self.old first (O.bytes sink.old) start text →
            OnOk result (IsAnswered D.Disk limits.now self.new first (O.bytes sink.new) start
            (text ++ piece.now)) }
        ensures stopped { (start : State) (first : Option (List ℕ)) (text : List ℕ) →
            IsAnswered D.Disk limits.now self.old first (O.bytes sink.old) start text →
            OnErr result (HasStopped D.Disk limits.now self.new.session.store first (O.bytes sink.new) start
            (ended_lines limits.now.line (text ++ piece.now))) }
        ensures blamed { IsBlamed D.Disk O.Sink ⊥ self.old.session.store self.new.session.store sink.old
            sink.new result }
        ensures wants { IfErr result IsWant }
    {
        self.cut.push(piece)?;
        self.answer_lines(rt, alloc, limits, sink)
    }

    /// Answers the last line, which has no line feed, where it has bytes.
    pub fn finish<H: Threads + Wait + Clock + Sync, O: Sink>(
        &mut self,
        rt: &H,
        alloc: Global,
        limits: &Limits,
        sink: &mut O,
    ) -> Result<(), LinkEnd>
        requires limit { limits.now.content ≤ 2 ^ 28 }
        requires lines { self.old.lines < 2 ^ 61 }
        requires sound { IsServed limits.now self.old }
        requires none { (next_cut self.old.cut).0 ≡ None }
        ensures sound { OnOk result (IsSession limits.now self.new.session) }
        ensures answered { (start : State) (first : Option (List ℕ)) (text : List ℕ) →
            IsAnswered D.Disk limits.now self.old first (O.bytes sink.old) start text →
            OnOk result (HasAnswered D.Disk limits.now self.new.session first (O.bytes sink.new) start
            (pieces_of limits.now.line text)) }
        ensures stopped { (start : State) (first : Option (List ℕ)) (text : List ℕ) →
            IsAnswered D.Disk limits.now self.old first (O.bytes sink.old) start text →
            OnErr result (HasStopped D.Disk limits.now self.new.session.store first (O.bytes sink.new) start
            (pieces_of limits.now.line text)) }
        ensures blamed { IsBlamed D.Disk O.Sink ⊥ self.old.session.store self.new.session.store sink.old
            sink.new result }
        ensures wants { IfErr result IsWant }
    {
        let number = self.lines + 1;
        let Some(text) = last_reply(rt, alloc, limits, number, &mut self.cut, &mut self.session)?
        else {
            return Ok(());
        };
        self.lines = number;
        Ok(put_all(sink, text.as_slice())?)
    }
}

// Cuts off the next line that has its line feed, and answers the text of its reply; none where no
// further line end has come.
fn next_reply<H: Threads + Wait + Clock + Sync, D: Disk, K: Keeper>(
    rt: &H,
    alloc: Global,
    limits: &Limits,
    number: u64,
    cut: &mut LineCut,
    session: &mut Session<D, K>,
) -> Result<Option<Bytes>, Stop>
    requires limit { limits.now.content ≤ 2 ^ 28 }
    requires sound { IsSession limits.now session.old }
    requires opens { session.old.link.opens < 2 ^ 63 }
    requires epoch { session.old.store.hot.epoch < 2 ^ 62 }
    ensures sound { IsSession limits.now session.new }
    ensures opens { session.new.link.opens ≤ session.old.link.opens + 1 }
    ensures cut { cut.new ≡ record cut.old { left = (next_cut cut.old).1 } }
    ensures replied { IsReplied D.Disk limits.now number (next_cut cut.old).0 session.old session.new result }
{
    reply_to(rt, alloc, limits, number, cut.next(), session)
}

// The same of the last line, which has no line feed.
fn last_reply<H: Threads + Wait + Clock + Sync, D: Disk, K: Keeper>(
    rt: &H,
    alloc: Global,
    limits: &Limits,
    number: u64,
    cut: &mut LineCut,
    session: &mut Session<D, K>,
) -> Result<Option<Bytes>, Stop>
    requires limit { limits.now.content ≤ 2 ^ 28 }
    requires sound { IsSession limits.now session.old }
    requires opens { session.old.link.opens < 2 ^ 63 }
    requires epoch { session.old.store.hot.epoch < 2 ^ 62 }
    ensures sound { IsSession limits.now session.new }
    ensures opens { session.new.link.opens ≤ session.old.link.opens + 1 }
    ensures cut { cut.new ≡ record cut.old { left = [] } }
    ensures replied { IsReplied D.Disk limits.now number (rest_cut cut.old) session.old session.new result }
{
    reply_to(rt, alloc, limits, number, cut.rest(), session)
}

// The text of the reply to what was cut off; none where nothing was.
#[tactic(auto, unfolding(crate::specs::Answer::effect))]
fn reply_to<H: Threads + Wait + Clock + Sync, D: Disk, K: Keeper>(
    rt: &H,
    alloc: Global,
    limits: &Limits,
    number: u64,
    cutting: Cutting<'_>,
    session: &mut Session<D, K>,
) -> Result<Option<Bytes>, Stop>
    requires limit { limits.now.content ≤ 2 ^ 28 }
    requires sound { IsSession limits.now session.old }
    requires opens { session.old.link.opens < 2 ^ 63 }
    requires epoch { session.old.store.hot.epoch < 2 ^ 62 }
    ensures sound { IsSession limits.now session.new }
    ensures opens { session.new.link.opens ≤ session.old.link.opens + 1 }
    ensures found { IfOk result (λ text. is_some text ≡ is_some (cut_of cutting.entry)) }
    ensures none { IfOk result (λ text. IfNone text (session.new ≡ session.old)) }
    ensures exact { (s : State) → Stands D.Disk session.old s →
        IfOk result (λ text. IfSome text (λ t. IfSome (cut_of cutting.entry)
        (λ piece. HasEffect D.Disk session.new t (effect limits.now number piece s)))) }
    ensures err_found { OnErr result (true ≡ is_some (cut_of cutting.entry)) }
    ensures err { (s : State) → Stands D.Disk session.old s →
        OnErr result (IfSome (cut_of cutting.entry) (λ piece. EndsAt D.Disk session.new.store s.list
        (effect limits.now number piece s).state.list)) }
    ensures devices { KeepsDevices D.Disk session.old.store session.new.store result }
{
    match cutting {
        Cutting::Line(line) => Ok(Some(session.line(rt, alloc, limits, number, line)?)),
        Cutting::Long => Ok(Some(Reply::ErrLong(number).print(alloc)?)),
        Cutting::NotYet => Ok(None),
    }
}
