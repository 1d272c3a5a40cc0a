ghost use Rattle.std.specs.Prelude.{◌≡◌, ℕ, ◌*◌, ◌≤◌, List, ◌++◌, All};
ghost use Rattle.std.specs.List.{filter};
ghost use Rattle.agg_model.specs.Arranged.{arranged, last_before};
ghost use Rattle.agg_model.specs.Batch.{IsChange};
ghost use Rattle.agg_model.specs.ChangeList.{ChangeList, IsChangeList, value_at};
ghost use Rattle.agg_model.specs.Contents.{is_within, changes_over, kv_contents, v_contents, ef_contents};
ghost use Rattle.agg_model.specs.LastChanges.{step_pairs};
ghost use Rattle.agg_model.specs.Pairs.{ArePairs, held_value, newest_word, only_from, step_files, value_over};
ghost use Rattle.agg_model.specs.Place.{place};
ghost use Rattle.agg_model.specs.declared.change.Change.{Change};
ghost use Rattle.agg_model.specs.declared.entity.Entity.{Entity};

use agg_outside::{Bytes, ListOf, Numbers};

/// A key and its value, which is empty where the key has none.
#[derive(Debug, Drop, PartialEq, Eq)]
pub struct Pair {
    pub key: Bytes,
    pub value: Bytes,
}

/// A key, the number of a change of it, and the value just before, which is empty where there was none.
#[derive(Debug, Drop, PartialEq, Eq)]
pub struct Before {
    pub key: Bytes,
    pub tx: u64,
    pub value: Bytes,
}

/// A key and the numbers at which it changed.
#[derive(Debug, Drop)]
pub struct Times {
    pub key: Bytes,
    pub items: Numbers,
}

/// What a `.kv` file holds.
pub type Pairs = ListOf<Pair>;

/// What a `.v` file holds.
pub type Befores = ListOf<Before>;

/// What an `.ef` file holds.
pub type Lists = ListOf<Times>;

/// What holds of the contents of files over every list.
pub fn contents_laws()
    // Changes from the end of the steps on leave files alone.
    ensures kv_stays { (size : ℕ) (cs ds : List Change) (e : Entity) (a b : ℕ) → All (λ d. b * size ≤ d.tx) ds → kv_contents size (cs ++ ds) e a b ≡ kv_contents size cs e a b }
    ensures v_stays { (size : ℕ) (cs ds : List Change) (e : Entity) (a b : ℕ) → All (λ d. b * size ≤ d.tx) ds → v_contents size (cs ++ ds) e a b ≡ v_contents size cs e a b }
    ensures ef_stays { (size : ℕ) (cs ds : List Change) (e : Entity) (a b : ℕ) → All (λ d. b * size ≤ d.tx) ds → ef_contents size (cs ++ ds) e a b ≡ ef_contents size cs e a b }
    // Keys ascend, and lengths are within their limits.
    ensures pairs { (size : ℕ) (cs : List Change) (e : Entity) (a b : ℕ) → All IsChange cs → ArePairs (kv_contents size cs e a b) }
    // The changes of steps are those within of all sorted changes.
    ensures within { (size : ℕ) (cs : List Change) (e : Entity) (a b : ℕ) → changes_over size cs e a b ≡ filter (is_within e (a * size) (b * size)) (arranged cs) }
    // They alone give the pairs of the steps.
    ensures sorted { (list : ChangeList) (e : Entity) (a b : ℕ) → IsChangeList list → a * list.size ≤ b * list.size →
        kv_contents list.size list.changes e a b ≡ step_pairs a (changes_over list.size list.changes e a b) }
{}

/// Files of the first steps, one step each, and the changes behind them tell each value from there on:
/// the last change before the number, where it is behind the files, and else the newest file that has
/// the key.
pub fn coverage_laws()
    ensures value { (list : ChangeList) (e : Entity) (k : List ℕ) (f n : ℕ) → IsChangeList list → f * list.size ≤ n →
        value_at list.changes e k n
        ≡ value_over (held_value (newest_word (step_files list.size list.changes e f) k)) (only_from (f * list.size) e k (last_before (place e k n) (arranged list.changes))) }
    ensures stays { (size : ℕ) (cs ds : List Change) (e : Entity) (f : ℕ) → All (λ d. f * size ≤ d.tx) ds → step_files size (cs ++ ds) e f ≡ step_files size cs e f }
{}
