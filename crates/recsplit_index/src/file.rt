ghost use Rattle.std.specs.Prelude.{◌≡◌, ℕ, ◌+◌, ◌*◌, ◌<◌, ◌≤◌, ◌^◌, [], length, map, IfOk, OnOk, IfErr, IfSome, IfNone, Err, Some};
ghost use Rattle.word_file.specs.Paired.{IsPaired, KeysDiffer, key_count};
ghost use Rattle.recsplit_index.specs.Keys.{IsKeyAt, IsNoKey};
ghost use Rattle.recsplit_index.specs.Spelling.{Index, spelling};
ghost use Rattle.recsplit_index.specs.Layout.{IsLayoutOf, IsShapeOf};
ghost use Rattle.recsplit_index.specs.Index.{index_of, IsIndexOf};
ghost use Rattle.word_file.specs.Difference.{first_difference};
ghost use Rattle.word_file.specs.declared.access.AccessError.TheVariants.{Differs, Memory as NoMemory};

use crate::compare::compare;
use crate::find::{find_sorted, is_key, offset_of};
use crate::hash::key_hash;
use crate::layout::{Layout, Shape, first_layout, layout_of};
use crate::spell::lay_out;
use agg_outside::{Bytes, Memory, Steps};
use std::alloc::Global;
use std::marker::{Brand, Model};
use std::sync::ledger::{Blank, Ledger};
use std::thread::Threads;
use word_file::{AccessError, WordFile};

/// The hash accessor of a word file.
#[derive(Debug, Drop)]
pub struct HashIndex {
    form: u8,
    salt: u8,
    starts: u64,
    count: u64,
    bits: u64,
    bytes: Bytes,
}

impl Model for HashIndex {
    ghost use Rattle.recsplit_index.specs.Spelling.{Index, index_in, IsHeld};

    ghost Value = { Index };

    ghost view = { λ x. index_in x.form x.salt x.starts x.count x.bits x.bytes };

    ghost invariant = { λ x. IsHeld x.form x.salt x.starts x.count x.bits x.bytes };
}

/// The accessor that these bytes are.
fn hold(shape: Shape, bytes: Bytes) -> HashIndex
    requires { (x : Index) × IsShapeOf shape x × (bytes ≡ spelling x) }
    ensures { (x : Index) → IsShapeOf shape x → bytes ≡ spelling x → result ≡ x }
{
    HashIndex {
        form: shape.form,
        salt: shape.salt,
        starts: shape.starts,
        count: shape.count,
        bits: shape.bits,
        bytes,
    }
}

/// The accessor of this layout.
fn held(alloc: Global, layout: &Layout) -> Result<HashIndex, Memory>
    requires { (x : Index) × IsLayoutOf layout.now x }
    ensures { (x : Index) → IsLayoutOf layout.now x → IfOk result (λ index. index ≡ x) }
{
    let bytes = lay_out(
        alloc,
        layout.form,
        layout.salt,
        layout.starts.as_slice(),
        layout.offsets.as_slice(),
        layout.text.as_slice(),
    )?;
    Ok(hold(layout.shape(), Bytes::from_vec(bytes)))
}

impl HashIndex {
    /// The accessor of the word file. Seeds are looked for below `tries`, and where they are not
    /// found under any of the eight salts, the form is 0.
    pub fn build(alloc: Global, words: &WordFile, tries: u32) -> Result<HashIndex, Memory>
        requires paired { IsPaired words.now.words }
        requires differ { KeysDiffer words.now.words }
        requires tries { tries ≤ 2 ^ 16 }
        ensures ok { IfOk result (λ x. x ≡ index_of tries words.now.words) }
        // What `find` asks for.
        ensures of_words { IfOk result (IsIndexOf words.now.words) }
    {
        let layout = layout_of::<Brand>(alloc, words, tries, Blank::new(1))?;
        held(alloc, &layout)
    }

    /// The accessor of the word file, as `build` gives it. Where there are many keys, the seeds of its buckets are
    /// looked for side by side.
    pub fn build_side_by_side<R: Threads + Sync>(
        rt: &R,
        alloc: Global,
        words: &WordFile,
        tries: u32,
    ) -> Result<HashIndex, Memory>
        requires paired { IsPaired words.now.words }
        requires differ { KeysDiffer words.now.words }
        requires tries { tries ≤ 2 ^ 16 }
        ensures ok { IfOk result (λ x. x ≡ index_of tries words.now.words) }
        // What `find` asks for.
        ensures of_words { IfOk result (IsIndexOf words.now.words) }
    {
        let first = first_layout::<R, Brand>(rt, alloc, words, tries, Blank::new(1))?;
        match first {
            Some(layout) => held(alloc, &layout),
            None => HashIndex::build(alloc, words, tries),
        }
    }

    /// The bytes as the accessor of the word file, where they are what `build` gives. They are
    /// followed bucket by bucket; beside them stand the hashes and offsets of the keys, 16 bytes a
    /// key, and the bits.
    pub fn check(
        alloc: Global,
        bytes: Bytes,
        words: &WordFile,
        tries: u32,
    ) -> Result<HashIndex, AccessError>
        requires paired { IsPaired words.now.words }
        requires differ { KeysDiffer words.now.words }
        requires tries { tries ≤ 2 ^ 16 }
        ensures ok { IfOk result (λ x. x ≡ index_of tries words.now.words) }
        // What `find` asks for.
        ensures of_words { IfOk result (IsIndexOf words.now.words) }
        // What is accepted is spelled so.
        ensures found { OnOk result (bytes ≡ spelling (index_of tries words.now.words)) }
        // What is spelled so is refused for want of memory alone.
        ensures only { bytes ≡ spelling (index_of tries words.now.words) → IfErr result (λ e. e ≡ NoMemory) }
        // Where the bytes differ first.
        ensures exact { (at : ℕ) → result ≡ Err (Differs at) → first_difference bytes (spelling (index_of tries words.now.words)) ≡ Some at }
    {
        let text = bytes.as_slice();
        let compared = compare::<Brand>(alloc, text, words, tries, Blank::new(1))?;
        match compared.place {
            None => Ok(hold(compared.shape, bytes)),
            Some(at) => Err(AccessError::Differs { at: at as u64 }),
        }
    }

    /// 1 where the offsets stand by slot, and 0 where they stand in the order of their keys.
    pub fn form(&self) -> u8
        ensures { result ≡ self.now.form }
    {
        self.form
    }

    /// The whole accessor.
    pub fn bytes(&self) -> &[u8]
        ensures { result.now ≡ spelling self.now }
    {
        self.bytes.as_slice()
    }
    /// The offset of this key's word, and `None` where it is no key of the file. The key is
    /// compared with the word to which its hash leads, or with the words of a search in form 0.
    pub fn find<L: Ledger>(&self, words: &WordFile, key: &[u8], steps: &mut Steps<L>) -> Option<u64>
        requires { IsIndexOf words.now.words self.now }
        ensures found { IfSome result (λ offset. IsKeyAt words.now.words key.now offset) }
        ensures none { IfNone result (IsNoKey words.now.words key.now) }
        ensures split_steps { self.now.form ≡ 1 → steps.new ≤ steps.old + 1 }
        ensures plain_steps { (digits : ℕ) → key_count words.now.words < 2 ^ digits → steps.new ≤ steps.old + (digits + 1) }
    {
        let bytes = self.bytes.as_slice();
        if self.form == 0 {
            return find_sorted(bytes, self.count, words, key, steps);
        }
        let hash = key_hash(u64::from(self.salt), key);
        let offset = offset_of(bytes, self.starts, self.count, self.bits, hash)?;
        if is_key(words, offset, key, steps) {
            Some(offset)
        } else {
            None
        }
    }
}
