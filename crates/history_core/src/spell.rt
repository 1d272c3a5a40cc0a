//! The words of befores.
ghost use Rattle.std.specs.Prelude.{◌≡◌, [], ◌∷◌, ◌++◌, All, IfOk, OnOk};
ghost use Rattle.word_file.specs.Reading.{tagged};
ghost use Rattle.history_core.specs.Befores.{IsBefore};
ghost use Rattle.history_core.specs.KeyWord.{key_word, words_of};

use crate::key_word::{NUMBER, WORD_MOST, put_key_word};
use agg_model::Before;
use agg_outside::Memory;
use std::alloc::Global;
use word_file::{Tag, WordFile, WordWriter};

/// The bytes of the lengths of two words, and of a number.
const BESIDE: usize = 16;

fn push_before(writer: &mut WordWriter, row: &Before) -> Result<(), Memory>
    requires { IsBefore writer.old.tag row.now }
    ensures { OnOk result (writer.new
        ≡ tagged writer.old.tag (writer.old.words ++ key_word row.now.key row.now.tx ∷ row.now.value ∷ [])) }
{
    let key = row.key.as_slice();
    let mut word = [0; WORD_MOST];
    put_key_word(&mut word, key, row.tx);
    let written = &word[..key.len() + NUMBER];
    writer.push(written)?;
    writer.push(row.value.as_slice())?;
    Ok(())
}

/// How many bytes the words take. Room that is too small only costs time.
fn room_of(rows: &[Before]) -> usize {
    let mut room = 0usize;
    for row in rows {
        let key = row.key.as_slice().len();
        let value = row.value.as_slice().len();
        room = room.saturating_add(key).saturating_add(value);
        room = room.saturating_add(BESIDE);
    }
    room
}

/// The words of the befores under their tag.
pub(crate) fn words_for(alloc: Global, tag: Tag, rows: &[Before]) -> Result<WordFile, Memory>
    requires { All (IsBefore tag) rows.now }
    ensures { IfOk result (λ words. words ≡ tagged tag (words_of rows.now)) }
{
    let mut writer = WordWriter::with_room(alloc, tag, room_of(rows))?;
    for row in rows {
        push_before(&mut writer, row)?;
    }
    Ok(writer.finish())
}
