//! A session over a source and a sink: takes bytes, and answers each line before it takes more.
ghost use Rattle.std.specs.Prelude.{◌≡◌, ◌⊎◌, ◌<◌, ◌≤◌, ◌^◌, ◌+◌, length, None, IfOk, OnOk, OnErr, IfErr, IsErrOf};
ghost use Rattle.std.specs.Prelude.{MatchResult};
ghost use Rattle.std.specs.Option.{ForSome};
ghost use Rattle.agg_outside.specs.Counts.{Rose};
ghost use Rattle.line_words.specs.LineCut.{next_cut};
ghost use Rattle.agg_session.specs.Ends.{IsBlamed, IsWant, ended_by};
ghost use Rattle.session_link.specs.Running.{IsSession};
ghost use Rattle.agg_session.specs.Served.{IsServed, IsTaken, IsAtEnd, EndsLong};
ghost use Rattle.agg_session.specs.Over.{TakesOver, TakesPartOver, ServesAllOver, ServesEndedOver, ServesPartOver};

use crate::ends::LinkEnd;
use crate::served::Served;
use agg_outside::{Disk, Keeper, Sink, Source};
use session_link::Limits;
use std::alloc::Global;
use std::rt::Clock;
use std::sync::Wait;
use std::thread::Threads;

/// How many bytes are asked for at a time.
const ROOM: usize = 4096;

// Takes the next bytes into the buffer, and answers those that came: none at the end of the source.
fn take_piece<'a, I: Source>(source: &mut I, buffer: &'a mut [u8]) -> Result<&'a [u8], LinkEnd>
    requires { 0 < length buffer.old }
    ensures fits { IfOk result (λ piece. length piece.now ≤ length buffer.old) }
    ensures taken { IfOk result (λ piece. IsTaken (I.left source.old) piece.now (I.left source.new)) }
    ensures none { IfOk result (λ piece. length piece.now ≡ 0 → IsAtEnd (I.left source.old) (I.left source.new)) }
    ensures err { OnErr result (I.left source.new ≡ I.left source.old) }
    ensures only { IfErr result (λ end. end ≡ LinkEnd.Source) }
    ensures source_stays { I.faults source.old ≤ I.faults source.new }
    ensures source { OnErr result (Rose (I.faults source.old) (I.faults source.new)) }
{
    match source.take(buffer) {
        Ok(count) => Ok(&buffer[..count]),
        Err(_) => Err(LinkEnd::Source),
    }
}

// Takes at most `room` bytes and answers the lines that they end. Answers how many bytes came: none
// at the end of the source.
fn take_some<H: Threads + Wait + Clock + Sync, D: Disk, K: Keeper, I: Source, O: Sink>(
    rt: &H,
    alloc: Global,
    limits: &Limits,
    room: usize,
    served: &mut Served<D, K>,
    source: &mut I,
    sink: &mut O,
) -> Result<usize, LinkEnd>
    requires limit { limits.now.content ≤ 2 ^ 28 }
    requires room { 0 < room }
    requires within { room ≤ 4096 }
    requires lines { served.old.lines + length served.old.cut.left < 2 ^ 60 }
    requires sound { IsServed limits.now served.old }
    requires none { (next_cut served.old.cut).0 ≡ None }
    ensures fits { IfOk result (λ count. count ≤ room) }
    ensures sound { OnOk result (IsServed limits.now served.new) }
    ensures none { OnOk result ((next_cut served.new.cut).0 ≡ None) }
    ensures lines { IfOk result
        (λ count. served.new.lines + length served.new.cut.left ≤ served.old.lines + length served.old.cut.left +
        count) }
    ensures answered { IfOk result (λ count. TakesOver D.Disk I.Source O.Sink limits.now served.old served.new
        source.old source.new sink.old sink.new count) }
    ensures stopped { OnErr result (TakesPartOver D.Disk I.Source O.Sink limits.now room served.old served.new
        source.old source.new sink.old sink.new) }
    ensures nothing { IsErrOf result LinkEnd.Source →
        (served.new ≡ served.old) × (O.bytes sink.new ≡ O.bytes sink.old) × (I.left source.new ≡ I.left source.old) }
    ensures source_stays { I.faults source.old ≤ I.faults source.new }
    ensures blamed { IsBlamed D.Disk O.Sink (Rose (I.faults source.old) (I.faults source.new))
        served.old.session.store served.new.session.store sink.old sink.new result }
    ensures wants { IfErr result IsWant }
{
    let mut buffer = [0u8; ROOM];
    let piece = take_piece(source, &mut buffer[..room])?;
    served.feed(rt, alloc, limits, piece, sink)?;
    Ok(piece.len())
}

/// Serves the source to its end, and at most `limits.bytes` bytes of it.
pub fn serve<H: Threads + Wait + Clock + Sync, D: Disk, K: Keeper, I: Source, O: Sink>(
    rt: &H,
    alloc: Global,
    limits: &Limits,
    served: &mut Served<D, K>,
    source: &mut I,
    sink: &mut O,
) -> LinkEnd
    requires limit { limits.now.content ≤ 2 ^ 28 }
    requires bytes { limits.now.bytes ≤ 2 ^ 40 }
    requires fresh { served.old.lines + length served.old.cut.left ≡ 0 }
    requires sound { IsServed limits.now served.old }
    requires none { (next_cut served.old.cut).0 ≡ None }
    ensures sound { result ≡ LinkEnd.Done → IsSession limits.now served.new.session }
    ensures all { result ≡ LinkEnd.Done → ServesAllOver D.Disk I.Source O.Sink limits.now served.old served.new
        source.old source.new sink.old sink.new }
    ensures ended { (result ≡ LinkEnd.Source) ⊎ (result ≡ LinkEnd.Long) →
        ServesEndedOver D.Disk I.Source O.Sink limits.now served.old served.new
        source.old source.new sink.old sink.new }
    ensures part { (result ≡ LinkEnd.Done → ⊥) →
        ServesPartOver D.Disk I.Source O.Sink limits.now served.old served.new
        source.old source.new sink.old sink.new }
    ensures long { result ≡ LinkEnd.Long → ForSome (I.left source.old) (λ input. EndsLong limits.now.bytes input
        (I.left source.new)) }
    ensures source_stays { I.faults source.old ≤ I.faults source.new }
    ensures blamed { IsBlamed D.Disk O.Sink (Rose (I.faults source.old) (I.faults source.new))
        served.old.session.store served.new.session.store sink.old sink.new (ended_by result) }
{
    let mut taken = 0u64;
    while taken < limits.bytes {
        let room = (limits.bytes - taken).min(ROOM as u64) as usize;
        match take_some(rt, alloc, limits, room, served, source, sink) {
            Ok(0) => return end_of(served.finish(rt, alloc, limits, sink)),
            Ok(count) => taken += count as u64,
            Err(end) => return end,
        }
    }
    LinkEnd::Long
}

// The end of a link whose last line was worked on.
fn end_of(outcome: Result<(), LinkEnd>) -> LinkEnd
    ensures { MatchResult outcome (λ _. result ≡ LinkEnd.Done) (λ end. result ≡ end) }
{
    match outcome {
        Ok(()) => LinkEnd::Done,
        Err(end) => end,
    }
}
