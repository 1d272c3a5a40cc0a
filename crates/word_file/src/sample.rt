ghost use Rattle.std.specs.Prelude.{◌≡◌, ◌≤◌, ◌^◌, IfOk};
ghost use Rattle.word_file.specs.Sample.{odd_words};
ghost use Rattle.word_file.specs.Paired.{IsPaired};

use crate::file::WordFile;
use crate::tag::Tag;
use crate::writer::WordWriter;
use agg_outside::Memory;
use std::alloc::Global;

/// A file to try accessors on: `count` keys of two bytes, 00 01, 00 03 and so on, with empty values.
pub fn odd_keys(alloc: Global, count: u16) -> Result<WordFile, Memory>
    requires { count ≤ 2 ^ 15 }
    ensures words { IfOk result (λ f. f.words ≡ odd_words count) }
    ensures paired { IfOk result (λ f. IsPaired f.words) }
{
    let tag = Tag {
        entity: 0,
        kind: 0,
        version: 1,
        step: 1,
        from: 0,
        to: 1,
    };
    let mut writer = WordWriter::new(alloc, tag)?;
    for i in 0..count {
        let key = 2 * i + 1;
        writer.push(&key.to_be_bytes())?;
        writer.push(&[])?;
    }
    Ok(writer.finish())
}
