//! Standard input as a source.
ghost use Rattle.std.specs.Prelude.{◌≡◌, ◌≤◌, None, IfOk, OnOk, OnErr, length};
ghost use Rattle.real_side.specs.Faults.{one_more};

use agg_outside::{Failed, Source};
use std::io;
use std::io::{BufRead, ErrorKind, Read};
use std::marker::Model;

/// How often a read is tried again that a signal cut short.
const RETRIES: usize = 64;

/// Gives the bytes of standard input in order, and counts the calls that it refused.
///
/// A call reads at most once with success, and holds no byte back for a later call.
#[derive(Drop)]
pub struct StdSource<I> {
    input: I,
    faults: u64,
}

impl<I> Model for StdSource<I> {
    ghost use Rattle.std.specs.Prelude.{ℕ};

    ghost Value = { ℕ };

    ghost view = { λ s. s.faults };
}

impl<I: BufRead + Drop> StdSource<I> {
    /// The standard input of `rt`. Nothing is read before the first call.
    pub fn new<R: Input<Reader = I>>(rt: &R) -> StdSource<I>
        ensures { result ≡ 0 }
    {
        StdSource {
            input: rt.reader(),
            faults: 0,
        }
    }
}

impl<I: Read> Source for StdSource<I> {
    ghost faults = { λ s. s };

    ghost left = { λ _. None };

    fn take(&mut self, buf: &mut [u8]) -> Result<usize, Failed>
        ensures fits { IfOk result (λ count. count ≤ length buf.old) }
        ensures unchanged { OnOk result (self.new ≡ self.old) }
        ensures counted { OnErr result (self.new ≡ one_more self.old) }
    {
        let Ok(count) = read_some(&mut self.input, buf) else {
            self.faults = self.faults.saturating_add(1);
            return Err(Failed);
        };
        Ok(count)
    }
}

/// Reads once, and again where a signal cut the read short before it had a byte.
fn read_some<I: Read>(input: &mut I, buf: &mut [u8]) -> io::Result<usize>
    ensures { IfOk result (λ count. count ≤ length buf.old) }
{
    for _ in 0..RETRIES {
        match input.read(buf) {
            Err(error) if error.kind() == ErrorKind::Interrupted => {}
            answer => return answer,
        }
    }
    input.read(buf)
}

#[cfg(test)]
mod tests {
    use super::*;
    use std::test::Fail;

    /// Is interrupted so often, then gives a byte, and from then on fails.
    #[derive(Drop)]
    struct Interrupted {
        left: usize,
        given: bool,
    }

    impl Read for Interrupted {
        fn read(&mut self, buf: &mut [u8]) -> io::Result<usize> {
            if self.left > 0 {
                self.left -= 1;
                return Err(io::Error::from(ErrorKind::Interrupted));
            }
            if self.given || buf.is_empty() {
                return Err(io::Error::from(ErrorKind::Other));
            }
            self.given = true;
            buf[0] = b'a';
            Ok(1)
        }
    }

    #[test]
    fn an_empty_standard_input_is_at_its_end(rt: HostRuntime) -> Result<(), Fail> {
        let mut source = StdSource::new(&rt);
        let mut buf = [0; 8];
        assert_eq!(rt; source.take(&mut buf), Ok(0));
        Ok(())
    }

    #[test]
    fn the_bytes_of_the_input_come_in_order(rt: HostRuntime) -> Result<(), Fail> {
        let input = b"abc";
        let mut source = StdSource {
            input: input.as_slice(),
            faults: 0,
        };
        let mut buf = [0; 2];
        assert_eq!(rt; source.take(&mut buf), Ok(2));
        assert_eq!(rt; buf, *b"ab");
        assert_eq!(rt; source.take(&mut buf), Ok(1));
        assert_eq!(rt; buf, *b"cb");
        assert_eq!(rt; source.take(&mut buf), Ok(0));
        Ok(())
    }

    #[test]
    fn a_read_is_tried_again_after_a_signal(rt: HostRuntime) -> Result<(), Fail> {
        let mut buf = [0; 1];
        let input = Interrupted {
            left: RETRIES,
            given: false,
        };
        let mut source = StdSource { input, faults: 0 };
        assert_eq!(rt; source.take(&mut buf), Ok(1));
        assert_eq!(rt; buf, *b"a");
        assert_eq!(rt; source.take(&mut buf), Err(Failed));
        let input = Interrupted {
            left: RETRIES + 1,
            given: false,
        };
        let mut source = StdSource { input, faults: 0 };
        assert_eq!(rt; source.take(&mut buf), Err(Failed));
        Ok(())
    }
}
