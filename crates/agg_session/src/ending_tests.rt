use crate::tests::{FIRST_PATH, FIRST_REPLIES, ends, status_of_words, words_of};
use crate::*;
use agg_outside::*;
use memory_side::*;
use std::process::Abort;
use std::test::Fail;

#[test]
fn a_source_that_fails_leaves_the_replies_to_whole_lines(rt: HostRuntime) -> Result<(), Fail> {
    let alloc = rt.alloc();
    let mut source = MemSource::new(alloc, b"tx 1\nput acc", &[2])?;
    let mut sink = SureSink::new(alloc, &[])?;
    let end = ends(&rt, alloc, &Limits::usual(), &[], &mut source, &mut sink)?;
    assert_eq!(rt; end, (Status::SourceFault, 0));
    assert_eq!(rt; sink.bytes(), b"ok\n".as_slice());
    Ok(())
}

#[test]
fn as_many_bytes_are_taken_as_may_be(rt: HostRuntime) -> Result<(), Fail> {
    let alloc = rt.alloc();
    let limits = Limits {
        bytes: 8,
        ..Limits::usual()
    };
    let mut source = SureSource::new(alloc, b"tx 0\ntx 1\n")?;
    let mut sink = SureSink::new(alloc, &[])?;
    let end = ends(&rt, alloc, &limits, &[], &mut source, &mut sink)?;
    assert_eq!(rt; end, (Status::Long, 0));
    assert_eq!(rt; sink.bytes(), b"ok\n".as_slice());
    Ok(())
}

#[test]
fn a_keeper_that_fails_leaves_the_rows_of_what_was_answered(rt: HostRuntime) -> Result<(), Fail> {
    let alloc = rt.alloc();
    let failed = [(1, 0, 6), (2, 1, 31), (3, 1, 40)];
    for (call, rows, written) in failed {
        let mut source = SureSource::new(alloc, FIRST_PATH)?;
        let mut sink = SureSink::new(alloc, &[])?;
        let end = ends(
            &rt,
            alloc,
            &Limits::usual(),
            &[call],
            &mut source,
            &mut sink,
        )?;
        assert_eq!(rt; end, (Status::KeeperFault, rows));
        assert_eq!(rt; sink.bytes(), &FIRST_REPLIES[..written]);
    }
    Ok(())
}

// Takes at most three bytes a call.
#[derive(Drop)]
struct Narrow {
    sink: MemSink,
}

impl Sink for Narrow {
    ghost use Rattle.std.specs.Prelude.{Some};

    ghost faults = { λ s. s.sink.count.faults };

    ghost bytes = { λ s. Some s.sink.bytes };

    fn put(&mut self, piece: &[u8]) -> Result<usize, SinkError> {
        let most = piece.len().min(3);
        self.sink.put(&piece[..most])
    }
}

// How much is written before each call; the third begins the reply to the commit.
const WRITTEN: &[u8] = b"\x00\x03\x06\x09\x0c\x0f\x12\x14\x17\x1a\x1d\x1f\x22\x25\x28\x2b\x2d";

#[test]
fn a_sink_that_fails_has_a_first_part_of_the_replies(rt: HostRuntime) -> Result<(), Fail> {
    let alloc = rt.alloc();
    for (i, written) in WRITTEN.iter().enumerate() {
        let mut source = SureSource::new(alloc, FIRST_PATH)?;
        let sink = MemSink::new(alloc, &[], &[i as u64 + 1])?;
        let mut narrow = Narrow { sink };
        let end = ends(&rt, alloc, &Limits::usual(), &[], &mut source, &mut narrow)?;
        assert_eq!(rt; end, (Status::SinkFault, if i < 2 { 0 } else { 1 }));
        assert!(rt; FIRST_REPLIES.starts_with(narrow.sink.bytes()));
        assert_eq!(rt; narrow.sink.bytes().len(), *written as usize);
    }
    Ok(())
}

// Of a line that has come whole, and of which nothing more comes, the reply is written before more is
// asked for: the first write fails, and only then the second take would.
const WHOLE_LINE: &[u8] = b"tx 1\n";

#[test]
fn the_top_call_answers_a_whole_line_before_it_takes_more(rt: HostRuntime) -> Result<(), Fail> {
    let alloc = rt.alloc();
    let words = words_of(alloc, &["run"])?;
    let mut source = MemSource::new(alloc, WHOLE_LINE, &[2])?;
    let mut sink = MemSink::new(alloc, &[], &[1])?;
    let status = status_of_words(&rt, alloc, words.as_slice(), &mut source, &mut sink)?;
    assert_eq!(rt; status, Status::SinkFault);
    Ok(())
}
