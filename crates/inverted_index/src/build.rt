//! How a file is built of its lists.
ghost use Rattle.std.specs.Prelude.{◌≡◌, ◌<◌, ◌^◌, ◌++◌, [], ◌∷◌, length, All, IfOk, OnOk};
ghost use Rattle.elias_fano.specs.Spelling.{spelling};
ghost use Rattle.word_file.specs.Reading.{tagged};
ghost use Rattle.inverted_index.specs.EfFile.{AreLists, IsTimes, words_of, tagged_lists};

use crate::ef_file::EfFile;
use agg_model::{Lists, Times};
use agg_outside::Memory;
use elias_fano::encode;
use std::alloc::Global;
use word_file::{Tag, WordFile, WordWriter};

fn push_list(alloc: Global, writer: &mut WordWriter, list: &Times) -> Result<(), Memory>
    requires times { IsTimes writer.old.tag list.now }
    requires few { length list.now.items < 2 ^ 23 }
    ensures { OnOk result
        (writer.new ≡ tagged writer.old.tag (writer.old.words ++ list.now.key ∷ spelling list.now.items ∷ [])) }
{
    let text = encode(alloc, list.items.as_slice())?;
    writer.push(list.key.as_slice())?;
    writer.push(text.as_slice())?;
    Ok(())
}

fn words_for(alloc: Global, tag: Tag, lists: &[Times]) -> Result<WordFile, Memory>
    requires { AreLists tag lists.now }
    ensures { IfOk result (λ words. words ≡ tagged tag (words_of lists.now)) }
{
    let mut writer = WordWriter::new(alloc, tag)?;
    for list in lists {
        push_list(alloc, &mut writer, list)?;
    }
    Ok(writer.finish())
}

/// The file of these lists, with its accessor.
pub fn build_ef(alloc: Global, tag: Tag, lists: &Lists) -> Result<EfFile, Memory>
    requires { AreLists tag lists.now }
    ensures { IfOk result (λ file. file ≡ tagged_lists tag lists.now) }
{
    let words = words_for(alloc, tag, lists.as_slice())?;
    EfFile::of(alloc, words)
}
