//! Standard output as a sink.
ghost use Rattle.std.specs.Prelude.{◌≡◌, ◌<◌, ◌≤◌, None, IfOk, OnOk, OnErr, IsErr, length};
ghost use Rattle.real_side.specs.Faults.{one_more};

use agg_outside::{Sink, SinkError};
use std::io;
use std::io::ErrorKind;
use std::marker::Model;

/// How often a write is tried again that a signal cut short.
const RETRIES: usize = 64;

/// Writes to standard output in order, and counts the calls that it refused.
///
/// A call hands its bytes to the system before it answers, so none wait in a buffer when the
/// program ends.
#[derive(Drop)]
pub struct StdSink<'a, R> {
    rt: &'a R,
    faults: u64,
}

impl<'a, R> Model for StdSink<'a, R> {
    ghost use Rattle.std.specs.Prelude.{ℕ};

    ghost Value = { ℕ };

    ghost view = { λ s. s.faults };
}

impl<'a, R: Print> StdSink<'a, R> {
    /// The standard output of `rt`. Nothing is written before the first call.
    pub fn new(rt: &'a R) -> StdSink<'a, R>
        ensures { result ≡ 0 }
    {
        StdSink { rt, faults: 0 }
    }
}

impl<R: Print> Sink for StdSink<'_, R> {
    ghost faults = { λ s. s };

    ghost bytes = { λ _. None };

    /// A piece of which the system takes no byte is refused, unless it is empty.
    fn put(&mut self, piece: &[u8]) -> Result<usize, SinkError>
        ensures fits { IfOk result (λ count. count ≤ length piece.now) }
        ensures some { IfOk result (λ count. 0 < length piece.now → 0 < count) }
        ensures unchanged { OnOk result (self.new ≡ self.old) }
        ensures counted { OnErr result (self.new ≡ one_more self.old) }
        ensures failed_only { IsErr result → result ≡ Err SinkError.Failed }
    {
        match write_some(self.rt, piece) {
            Ok(count) if count > 0 || piece.is_empty() => Ok(count),
            _ => {
                self.faults = self.faults.saturating_add(1);
                Err(SinkError::Failed)
            }
        }
    }
}

/// Writes once, and again where a signal cut the write short before it took a byte.
fn write_some<R: Print>(rt: &R, piece: &[u8]) -> io::Result<usize>
    ensures { IfOk result (λ count. count ≤ length piece.now) }
{
    for _ in 0..RETRIES {
        match rt.write_some(piece) {
            Err(error) if error.kind() == ErrorKind::Interrupted => {}
            answer => return answer,
        }
    }
    rt.write_some(piece)
}

#[cfg(test)]
mod tests {
    use super::*;
    use std::alloc::Global;
    use std::cell::{Cell, RefCell};
    use std::fmt::Display;
    use std::test::Fail;

    /// Is interrupted `left` times. Then it takes at most `most` bytes of each piece, and keeps
    /// them.
    #[derive(Drop)]
    struct Noting {
        left: Cell<usize>,
        most: usize,
        taken: RefCell<Vec<u8>>,
    }

    impl Noting {
        fn new(alloc: Global, left: usize, most: usize) -> Noting {
            Noting {
                left: Cell::new(left),
                most,
                taken: RefCell::new(Vec::new(alloc)),
            }
        }

        fn has_taken(&self, bytes: &[u8]) -> bool {
            match self.taken.try_borrow() {
                Ok(taken) => taken.as_slice() == bytes,
                Err(_) => false,
            }
        }
    }

    impl Print for Noting {
        fn print<D: Display + Drop>(&self, _value: D) -> io::Result<()> {
            Ok(())
        }

        fn println<D: Display + Drop>(&self, _value: D) -> io::Result<()> {
            Ok(())
        }

        fn write_all(&self, _bytes: &[u8]) -> io::Result<()> {
            Ok(())
        }

        fn write_some(&self, bytes: &[u8]) -> io::Result<usize> {
            let left = self.left.get();
            if left > 0 {
                self.left.set(left - 1);
                return Err(io::Error::from(ErrorKind::Interrupted));
            }
            let piece = &bytes[..self.most.min(bytes.len())];
            let Ok(mut taken) = self.taken.try_borrow_mut() else {
                return Err(io::Error::from(ErrorKind::Other));
            };
            if taken.extend_from_slice(piece).is_err() {
                return Err(io::Error::from(ErrorKind::OutOfMemory));
            }
            Ok(piece.len())
        }
    }

    #[test]
    fn standard_output_takes_a_byte(rt: HostRuntime) -> Result<(), Fail> {
        let mut sink = StdSink::new(&rt);
        assert_eq!(rt; sink.put(b"\n"), Ok(1));
        assert_eq!(rt; sink.put(b""), Ok(0));
        Ok(())
    }

    #[test]
    fn the_bytes_go_out_in_order(rt: HostRuntime) {
        let output = Noting::new(rt.alloc(), 0, 2);
        let mut sink = StdSink::new(&output);
        assert_eq!(rt; sink.put(b"abc"), Ok(2));
        assert_eq!(rt; sink.put(b"cd"), Ok(2));
        assert!(rt; output.has_taken(b"abcd"));
    }

    #[test]
    fn a_write_is_tried_again_after_a_signal(rt: HostRuntime) {
        let output = Noting::new(rt.alloc(), RETRIES, 1);
        let mut sink = StdSink::new(&output);
        assert_eq!(rt; sink.put(b"a"), Ok(1));
        assert!(rt; output.has_taken(b"a"));
        let output = Noting::new(rt.alloc(), RETRIES + 1, 1);
        let mut sink = StdSink::new(&output);
        assert_eq!(rt; sink.put(b"a").err(), Some(SinkError::Failed));
        assert!(rt; output.has_taken(b""));
    }

    #[test]
    fn an_output_that_takes_nothing_has_failed(rt: HostRuntime) {
        let output = Noting::new(rt.alloc(), 0, 0);
        let mut sink = StdSink::new(&output);
        assert_eq!(rt; sink.put(b"abc").err(), Some(SinkError::Failed));
        assert_eq!(rt; sink.put(b""), Ok(0));
    }
}
