ghost use Rattle.std.specs.Prelude.{◌≡◌, ℕ, ◌*◌, List, map, AllPairs, None};
ghost use Rattle.agg_model.specs.ChangeList.{ChangeList, IsChangeList, value_at};
ghost use Rattle.agg_model.specs.Contents.{changes_over, kv_contents, v_contents, ef_contents};
ghost use Rattle.agg_model.specs.Pairs.{KeysAscend, pair_keys, word_in, newest_word, held_value};
ghost use Rattle.agg_model.specs.declared.contents.Before.{Before};
ghost use Rattle.agg_model.specs.declared.contents.Pair.{Pair};
ghost use Rattle.agg_model.specs.declared.contents.Times.{Times};
ghost use Rattle.agg_model.specs.declared.entity.Entity.{Entity};
ghost use Rattle.agg_model.specs.declared.entity.Range.{Range};
ghost use Rattle.content_laws.specs.Looks.{numbers_in, before_in, IsEarlier};
ghost use Rattle.content_laws.specs.Parts.{Adjoin, kv_files, v_files, ef_files, kept_word, numbers_over, before_over};
ghost use Rattle.content_laws.specs.Steps.{befores_behind, lists_among};

/// Files over adjacent ranges hold together what one file over all of them holds: of a key's words the newest,
/// of its numbers all, oldest first, and of its rows each.
pub fn parts_laws()
    ensures kv { (list : ChangeList) (e : Entity) (k : List ℕ) (a b : ℕ) (ranges : List Range) →
        IsChangeList list → Adjoin a ranges b →
        word_in (kv_contents list.size list.changes e a b) k
        ≡ kept_word a (newest_word (kv_files list.size list.changes e ranges) k) }
    ensures v { (list : ChangeList) (e : Entity) (k : List ℕ) (n a b : ℕ) (ranges : List Range) →
        IsChangeList list → Adjoin a ranges b →
        before_in (v_contents list.size list.changes e a b) k n
        ≡ before_over (v_files list.size list.changes e ranges) k n }
    ensures ef { (list : ChangeList) (e : Entity) (k : List ℕ) (a b : ℕ) (ranges : List Range) →
        IsChangeList list → Adjoin a ranges b →
        numbers_in (ef_contents list.size list.changes e a b) k
        ≡ numbers_over (ef_files list.size list.changes e ranges) k }
    // So files from step 0 on tell each value at their end.
    ensures value { (list : ChangeList) (e : Entity) (k : List ℕ) (f : ℕ) (ranges : List Range) →
        IsChangeList list → Adjoin 0 ranges f →
        value_at list.changes e k (f * list.size)
        ≡ held_value (newest_word (kv_files list.size list.changes e ranges) k) }
{}

/// What a file holds is told by its look-ups: two lists in order that answer each look alike are one list.
pub fn one_content_laws()
    ensures kv { (ps qs : List Pair) → KeysAscend (pair_keys ps) → KeysAscend (pair_keys qs) →
        ((k : List ℕ) → word_in ps k ≡ word_in qs k) → ps ≡ qs }
    ensures v { (bs ds : List Before) → AllPairs IsEarlier bs → AllPairs IsEarlier ds →
        ((k : List ℕ) (n : ℕ) → before_in bs k n ≡ before_in ds k n) → bs ≡ ds }
    ensures ef { (ts us : List Times) → KeysAscend (map (λ t. t.key) ts) → KeysAscend (map (λ t. t.key) us) →
        ((k : List ℕ) → numbers_in ts k ≡ numbers_in us k) → ts ≡ us }
{}

/// The sorted changes of steps, with the values before the steps, tell what the files of the steps hold.
pub fn steps_laws()
    ensures v { (list : ChangeList) (e : Entity) (a b : ℕ) → IsChangeList list →
        v_contents list.size list.changes e a b
        ≡ befores_behind (λ k. value_at list.changes e k (a * list.size)) None
        (changes_over list.size list.changes e a b) }
    ensures ef { (list : ChangeList) (e : Entity) (a b : ℕ) → IsChangeList list →
        ef_contents list.size list.changes e a b ≡ lists_among (changes_over list.size list.changes e a b) }
{}
