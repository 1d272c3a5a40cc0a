//! Replies to the sink.
ghost use Rattle.std.specs.Prelude.{◌≡◌, ◌++◌, Some, OnOk, OnErr};
ghost use Rattle.std.specs.Option.{ForSome};
ghost use Rattle.agg_outside.specs.Counts.{HasCause};
ghost use Rattle.agg_session.specs.Written.{BeginsToPut};

use agg_outside::{Sink, SinkError};

/// Writes all of `text`. After an error a first part of it may be written.
pub fn put_all<O: Sink>(sink: &mut O, text: &[u8]) -> Result<(), SinkError>
    ensures ok { ForSome (O.bytes sink.old) (λ before. OnOk result (O.bytes sink.new ≡ Some (before ++ text.now))) }
    ensures err { ForSome (O.bytes sink.old) (λ before. OnErr result (BeginsToPut before text.now (O.bytes sink.new))) }
    ensures cause { HasCause SinkError.Failed (O.faults sink.old) (O.faults sink.new) result }
{
    let mut done = 0;
    while done < text.len() {
        done += sink.put(&text[done..])?;
    }
    Ok(())
}
