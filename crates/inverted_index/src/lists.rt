//! Whether lists may be those of a file.
ghost use Rattle.std.specs.Prelude.{◌≡◌, ◌↔◌, IsTrue};
ghost use Rattle.std.specs.Option.{option_copied};
ghost use Rattle.inverted_index.specs.EfFile.{AreLists};
ghost use Rattle.inverted_index.specs.EfRules.{count_list, are_lists};

use crate::numbers::{are_numbers, counted_more};
use agg_model::{Lists, Times};
use hashed_words::is_plain_key;
use word_file::Tag;

// How many numbers there are with those of this list; `None` where it may not stand behind the key before it.
fn count_list(tag: Tag, last: Option<&[u8]>, counted: u64, list: &Times) -> Option<u64>
    ensures { result ≡ count_list tag (option_copied last.entry) counted list.now }
{
    let items = list.items.as_slice();
    if is_plain_key(last, list.key.as_slice()) && are_numbers(tag, items) {
        counted_more(counted, items.len() as u64)
    } else {
        None
    }
}

fn all_count(tag: Tag, lists: &[Times]) -> bool
    ensures { result ≡ are_lists tag lists.now }
{
    let mut last = None;
    let mut counted = 0;
    for list in lists {
        let Some(sum) = count_list(tag, last, counted, list) else {
            return false;
        };
        last = Some(list.key.as_slice());
        counted = sum;
    }
    true
}

/// Whether the lists may be those of a file of this tag: `build_ef` takes them.
pub fn are_lists(tag: Tag, lists: &Lists) -> bool
    ensures { IsTrue result ↔ AreLists tag lists.now }
{
    all_count(tag, lists.as_slice())
}
