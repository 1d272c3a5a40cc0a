//! What an `.ef` file asks of its words.
ghost use Rattle.inverted_index.specs.EfRules.{ef_rules};

use crate::numbers::count_text;
use hashed_words::{WordRules, is_plain_key};
use word_file::Tag;

/// The rules of the words under a tag.
#[derive(Debug, Drop)]
pub(crate) struct EfRules {
    pub(crate) tag: Tag,
}

impl WordRules for EfRules {
    ghost rules = { λ r. ef_rules r.tag };

    fn key_stands(&self, last: Option<&[u8]>, key: &[u8]) -> bool {
        is_plain_key(last, key)
    }

    fn count_value(&self, counted: u64, value: &[u8]) -> Option<u64> {
        count_text(self.tag, counted, value)
    }
}
