//! What a `.v` file asks of its words.
ghost use Rattle.std.specs.Prelude.{◌≡◌, ◌≤◌, length, IsTrue};
ghost use Rattle.std.specs.Option.{option_copied};
ghost use Rattle.history_core.specs.Rules.{is_key_word, stands_behind, v_rules};

use crate::key_word::{NUMBER, WORD_MOST, is_earlier, is_inside, number_of};
use hashed_words::{WordRules, count_plain_value};
use word_file::Tag;

/// The rules of the words under a tag.
#[derive(Debug, Drop)]
pub(crate) struct BeforeRules {
    pub(crate) tag: Tag,
}

/// Whether the word has a key of 1 to 64 bytes and a number in the steps.
#[tactic(auto, unfolding(crate::specs::Rules::is_key_word))]
fn is_key_word(tag: Tag, word: &[u8]) -> bool
    ensures value { result ≡ is_key_word tag word.now }
    ensures long { IsTrue result → 8 ≤ length word.now }
{
    NUMBER < word.len() && word.len() <= WORD_MOST && is_inside(tag, number_of(word))
}

/// Whether the key word comes after the one before it.
#[tactic(auto, unfolding(crate::specs::Rules::stands_behind))]
fn stands_behind(last: Option<&[u8]>, word: &[u8]) -> bool
    requires { 8 ≤ length word.now }
    ensures { result ≡ stands_behind (option_copied last.entry) word.now }
{
    match last {
        None => true,
        Some(last) => NUMBER <= last.len() && is_earlier(last, word),
    }
}

impl WordRules for BeforeRules {
    ghost rules = { λ r. v_rules r.tag };

    #[tactic(auto, unfolding(crate::specs::Rules::v_rules))]
    fn key_stands(&self, last: Option<&[u8]>, key: &[u8]) -> bool {
        is_key_word(self.tag, key) && stands_behind(last, key)
    }

    #[tactic(auto, unfolding(crate::specs::Rules::v_rules))]
    fn count_value(&self, counted: u64, value: &[u8]) -> Option<u64> {
        count_plain_value(counted, value)
    }
}
