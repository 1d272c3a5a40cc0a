ghost use Rattle.std.specs.Prelude.{◌≡◌, ℕ, ◌+◌, ◌*◌, ◌≤◌, ◌++◌, List, [], Option, Some, None, true, false, if◌then◌else◌, slice_get};
ghost use Rattle.agg_model.specs.declared.change.Change.{Change};
ghost use Rattle.agg_model.specs.declared.entity.Entity.{Entity};
ghost use Rattle.agg_model.specs.ChangeList.{ChangeList, IsChangeList, value_at};
ghost use Rattle.agg_model.specs.Contents.{times};
ghost use Rattle.agg_model.specs.Listed.{is_under, range, history};
ghost use Rattle.hot_keeper.specs.Windows.{window_keys};
ghost use Rattle.window_laws.specs.Pages.{IsNext, behind_key, lesser, row_with, row_at};
ghost use Rattle.window_laws.specs.Parts.{Part, ArePartsBelow, changes_from, value_found, numbers_found};

/// The value as of a number by the first change at or after it, and by files and the changes behind them.
pub fn coverage_laws()
    // Where no change of the key lies between, the value stays.
    ensures stays { (list : ChangeList) (e : Entity) (k : List ℕ) (n m : ℕ) → IsChangeList list → n ≤ m →
        times list.changes e k n m ≡ [] → value_at list.changes e k n ≡ value_at list.changes e k m }
    ensures value { (list : ChangeList) (e : Entity) (k : List ℕ) (end n : ℕ) (parts : List Part) → IsChangeList list →
        ArePartsBelow list e end parts →
        value_at list.changes e k n
        ≡ value_found parts (changes_from (end * list.size) list.changes) e k (end * list.size) n }
    ensures numbers { (list : ChangeList) (e : Entity) (k : List ℕ) (end a b : ℕ) (parts : List Part) → IsChangeList list →
        ArePartsBelow list e end parts →
        times list.changes e k a b
        ≡ numbers_found parts (changes_from (end * list.size) list.changes) e k a b }
{}

/// Which key comes next, of those that have numbers.
pub fn next_laws()
    // The next of two is the lesser of their next ones.
    ensures both { (ns ms : List ℕ → List ℕ) (first : List ℕ) (o p : Option (List ℕ)) →
        IsNext ns first o → IsNext ms first p → IsNext (λ k. ns k ++ ms k) first (lesser o p) }
    // Of the changes from a number on it is the first of their keys.
    ensures behind { (from : ℕ) (list : ChangeList) (e : Entity) (first : List ℕ) (a b : ℕ) →
        IsNext (λ k. times (changes_from from list.changes) e k a b) first
        (slice_get (window_keys (changes_from from list.changes) e first a b) 0) }
{}

/// The rows of a listed read, from key to key.
pub fn page_laws()
    ensures range_starts { (list : ChangeList) (e : Entity) (n : ℕ) (to : Option (List ℕ)) →
        range list.changes e n None to ≡ range list.changes e n (Some []) to }
    ensures range_goes { (list : ChangeList) (e : Entity) (n : ℕ) (to : Option (List ℕ)) (first k : List ℕ) →
        IsChangeList list → IsNext (λ k. times list.changes e k 0 n) first (Some k) →
        range list.changes e n (Some first) to
        ≡ (if is_under to k then row_with k (value_at list.changes e k n) else [])
        ++ range list.changes e n (Some (behind_key k)) to }
    ensures range_ends { (list : ChangeList) (e : Entity) (n : ℕ) (to : Option (List ℕ)) (first k : List ℕ) →
        IsNext (λ k. times list.changes e k 0 n) first (Some k) → is_under to k ≡ false →
        range list.changes e n (Some first) to ≡ [] }
    ensures range_none { (list : ChangeList) (e : Entity) (n : ℕ) (to : Option (List ℕ)) (first : List ℕ) →
        IsNext (λ k. times list.changes e k 0 n) first None → range list.changes e n (Some first) to ≡ [] }
    ensures history_starts { (list : ChangeList) (e : Entity) (a b : ℕ) →
        history list.changes e a b None ≡ history list.changes e a b (Some []) }
    ensures history_goes { (list : ChangeList) (e : Entity) (a b : ℕ) (first k : List ℕ) →
        IsNext (λ k. times list.changes e k a b) first (Some k) →
        history list.changes e a b (Some first)
        ≡ row_at k (value_at list.changes e k a) (times list.changes e k a b)
        ++ history list.changes e a b (Some (behind_key k)) }
    ensures history_none { (list : ChangeList) (e : Entity) (a b : ℕ) (first : List ℕ) →
        IsNext (λ k. times list.changes e k a b) first None → history list.changes e a b (Some first) ≡ [] }
{}
