ghost use Rattle.std.specs.Prelude.{◌≡◌, ◌<◌, ◌^◌, length};
ghost use Rattle.std.specs.Option.{option_copied, option_map};
ghost use Rattle.word_file.specs.Spelling.{offset_at};
ghost use Rattle.hashed_words.specs.Rules.{Rules, bad_place};

use agg_outside::Steps;
use std::sync::ledger::{Blank, Ledger};
use word_file::WordFile;

/// What a kind of file asks of its words, which are a key word, its value word, the next key word and so on.
pub trait WordRules {
    ghost rules: { Self → Rules };

    /// Whether the key word stands, behind the key word before it.
    fn key_stands(&self, last: Option<&[u8]>, key: &[u8]) -> bool
        ensures { result ≡ (rules self.now).key_stands (option_copied last.entry) key.now };

    /// How much is counted with this value word, if so much was counted of those before it; `None` where it
    /// breaks a rule.
    fn count_value(&self, counted: u64, value: &[u8]) -> Option<u64>
        requires { length value.now < 2 ^ 32 }
        ensures { result ≡ (rules self.now).count_value counted value.now };
}

/// The offset of the first word that breaks a rule, or the file's length where the last key word has no value
/// word; by going over the words once.
pub(crate) fn first_bad<R: WordRules, L: Ledger>(
    rules: &R,
    words: &WordFile,
    blank: Blank,
) -> Option<u64>
    requires name { blank.name ≡ L.name }
    requires parts { blank.parts ≡ L.parts }
    requires some { 0 < L.parts }
    ensures { result ≡ option_map (offset_at words.now.words) (bad_place (R.rules rules.now) words.now.words) }
{
    let mut steps = Steps::<L>::of(blank);
    // That there are fewer than 2^64 words comes with their number.
    let _count = words.count();
    let mut place = 0u64;
    let mut last = None;
    let mut counted = 0;
    let mut next = words.first();
    while let Some(at) = next {
        let key = words.word_at(at, &mut steps);
        if !rules.key_stands(last, key) {
            return Some(at);
        }
        let Some(behind) = words.next(at) else {
            return Some(words.bytes().len() as u64);
        };
        let value = words.word_at(behind, &mut steps);
        let Some(sum) = rules.count_value(counted, value) else {
            return Some(behind);
        };
        last = Some(key);
        counted = sum;
        place += 2;
        next = words.next(behind);
    }
    None
}
