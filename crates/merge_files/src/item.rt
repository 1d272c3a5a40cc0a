//! What a walk gives.
ghost use Rattle.std.specs.Prelude.{◌≡◌, ◌<◌, length, All};
ghost use Rattle.agg_model.specs.declared.entity.FileKind.{FileKind};
ghost use Rattle.agg_model.specs.declared.entity.FileKind.TheVariants.{Ef};
ghost use Rattle.inverted_index.specs.EfFile.{IsTextOf, numbers_in};

use agg_model::FileKind;
use elias_fano::EfList;

/// A key word, and its value words in the inputs that have it.
#[derive(Debug, Drop)]
pub struct MergeItem<'a> {
    pub(crate) kind: FileKind,
    pub(crate) key: &'a [u8],
    pub(crate) words: &'a [&'a [u8]],
    ghost some: { 0 < length words.now },
    ghost lists: { kind ≡ Ef → All (λ w. IsTextOf w.now (numbers_in w.now)) words.now },
}

impl<'a> MergeItem<'a> {
    ghost use Rattle.std.specs.Prelude.{◌-◌, ℕ, [], List, slice_index_or};
    ghost use Rattle.elias_fano.specs.Spelling.{IsListable, spelling};
    ghost use Rattle.merge_files.specs.MergedRows.{oldest_of};
    ghost use Rattle.merge_files.specs.Shown.{shown};

    /// The key word.
    pub fn key(&self) -> &[u8]
        ensures { result.now ≡ (shown self.now).key }
    {
        self.key
    }

    /// Its value word in the last input that has it.
    pub fn newest(&self) -> &[u8]
        ensures some { 0 < length (shown self.now).words }
        ensures word { result.now ≡ slice_index_or (shown self.now).words (length (shown self.now).words - 1) [] }
    {
        self.words[self.words.len() - 1]
    }

    // Its value word in the first input that has it.
    pub(crate) fn oldest(&self) -> &[u8]
        ensures { result.now ≡ oldest_of (shown self.now).words }
    {
        self.words[0]
    }

    /// The number of inputs that have it.
    pub fn lists(&self) -> usize
        ensures { result ≡ length (shown self.now).words }
    {
        self.words.len()
    }

    /// The list in the i-th of these inputs, from 0 and in their order.
    pub fn list(&self, i: usize) -> EfList<'_>
        requires kind { (shown self.now).kind ≡ Ef }
        requires within { i < length (shown self.now).words }
        ensures found { IsListable result × (slice_index_or (shown self.now).words i [] ≡ spelling result) }
        ensures only { (items : List ℕ) → IsListable items →
            slice_index_or (shown self.now).words i [] ≡ spelling items → result ≡ items }
    {
        EfList::of(self.words[i])
    }
}
