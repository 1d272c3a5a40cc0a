ghost use Rattle.std.specs.Prelude.{◌≡◌, [], ◌∷◌, ◌++◌, ◌*◌, ◌≤◌, ℕ, Bool, true, List, All, IsTrue};
ghost use Rattle.agg_model.specs.declared.change.Change.{Change};
ghost use Rattle.agg_model.specs.declared.entity.Entity.{Entity};
ghost use Rattle.agg_model.specs.declared.entity.Range.{Range};
ghost use Rattle.agg_model.specs.ChangeList.{ChangeList};
ghost use Rattle.merge_ranges.specs.declared.name.FileName.{FileName};
ghost use Rattle.merge_ranges.specs.Cut.{is_aligned, IsUnionIn};
ghost use Rattle.merge_ranges.specs.Name.{is_name, spelled};
ghost use Rattle.core_machine.specs.declared.entry.Entry.{Entry};
ghost use Rattle.core_machine.specs.declared.machine.Machine.{Machine};
ghost use Rattle.core_machine.specs.declared.machine.Opening.{Opening};
ghost use Rattle.core_machine.specs.Texts.{has, IsInForm, SameNames, entity_texts};
ghost use Rattle.core_machine.specs.Publishing.{is_end, IsCollation, IsMerge};
ghost use Rattle.core_machine.specs.Sound.{IsSound, list_of};
ghost use Rattle.core_machine.specs.Histories.{Record, cut_of, entries_of, IsLegalFrom, AreLasting};
ghost use Rattle.core_machine.specs.Entries.{IsIngest, IsOpen, IsSweep, after_ingest, after_open, after_close};
ghost use Rattle.core_machine.specs.Entries.{after_publish, after_stray, after_sweep, ArePossible, WasOpened};
ghost use Rattle.core_machine.specs.Entries.{IsFirstImpossible, replay};

/// What holds of lists of names.
pub fn form_laws()
    // Equal sets are equal lists.
    ensures one { (xs ys : List (List ℕ)) → IsInForm xs → IsInForm ys → SameNames xs ys → xs ≡ ys }
{}

/// What the visible names of a sound machine tell.
pub fn visible_laws()
    // The step at which the groups end, and the cut of each entity, can be read off the names.
    ensures last { (m : Machine) (sound : IsSound m) → is_end m.visible sound.groups.end ≡ true }
    ensures no_other { (m : Machine) (sound : IsSound m) (step : ℕ) → is_end m.visible step ≡ true →
        sound.groups.end ≡ step }
    ensures cut { (m : Machine) (sound : IsSound m) (e : Entity) → cut_of m.visible e ≡ sound.groups.cuts e }
    // A merge is of an aligned range that is the union of ranges of its entity's cut, and each such range may be merged.
    ensures union { (m : Machine) (added replaced : List (List ℕ)) → IsSound m →
        (may : IsMerge m.visible added replaced) →
        IsUnionIn (cut_of m.visible may.entity) may.range }
    ensures merge { (m : Machine) (e : Entity) (r : Range) (added replaced : List (List ℕ)) → IsSound m →
        (u : IsUnionIn (cut_of m.visible e) r) → IsTrue (is_aligned r) → SameNames added (entity_texts e (r ∷ [])) →
        SameNames replaced (entity_texts e u.mid) → IsMerge m.visible added replaced }
{}

/// Each entry that is possible keeps a machine sound; so no order of collating, merging, publishing, opening, closing
/// and sweeping takes a name from an open row.
pub fn sound_laws()
    ensures ingest { (m : Machine) (batch : List Change) → IsSound m → IsIngest m batch →
        IsSound (after_ingest m batch) }
    ensures opening { (m : Machine) (caller number : ℕ) (names : List (List ℕ)) → IsSound m →
        IsOpen m caller number names →
        IsSound (after_open m caller number) }
    ensures close { (m : Machine) (caller number : ℕ) → IsSound m → IsSound (after_close m caller number) }
    ensures collation { (m : Machine) (added replaced : List (List ℕ)) → IsSound m →
        IsCollation m.next m.size m.visible added replaced → IsSound (after_publish m added replaced) }
    ensures merge { (m : Machine) (added replaced : List (List ℕ)) → IsSound m → IsMerge m.visible added replaced →
        IsSound (after_publish m added replaced) }
    ensures stray { (m : Machine) (names : List (List ℕ)) → IsSound m → IsSound (after_stray m names) }
    ensures sweep { (m : Machine) (name : List ℕ) → IsSound m → IsSweep m name → IsSound (after_sweep m name) }
    // So does each list of entries that are possible where they stand.
    ensures all { (m : Machine) (entries : List Entry) → IsSound m → ArePossible m entries →
        IsSound (replay m entries) }
{}

/// What holds of lists of entries in parts.
pub fn replay_laws()
    ensures append { (m : Machine) (xs ys : List Entry) → replay m (xs ++ ys) ≡ replay (replay m xs) ys }
    // The front of entries that are possible is possible, and what is possible behind it may follow.
    ensures front { (m : Machine) (xs ys : List Entry) → ArePossible m (xs ++ ys) → ArePossible m xs }
    ensures back { (m : Machine) (xs ys : List Entry) → ArePossible m (xs ++ ys) → ArePossible (replay m xs) ys }
    ensures joined { (m : Machine) (xs ys : List Entry) → ArePossible m xs → ArePossible (replay m xs) ys →
        ArePossible m (xs ++ ys) }
    // The first entry that isn't possible is one, and where there is one, they aren't all possible.
    ensures once { (m : Machine) (entries : List Entry) (place other : ℕ) → IsFirstImpossible m entries place →
        IsFirstImpossible m entries other → place ≡ other }
    ensures not_all { (m : Machine) (entries : List Entry) (place : ℕ) → IsFirstImpossible m entries place →
        ArePossible m entries → ⊥ }
    // Each row that is open was opened by one of the entries, and has the number and the names of that moment.
    ensures opened { (m : Machine) (entries : List Entry) → m.opened ≡ [] →
        All (WasOpened m entries) (replay m entries).opened }
{}

/// What holds of legal histories.
pub fn history_laws()
    // Its entries are possible where they stand.
    ensures possible { (bytes : ChangeList → FileName → List ℕ) (solo : Bool) (m : Machine) (history : List Record) →
        IsLegalFrom bytes solo m history → ArePossible m (entries_of history) }
    // The front of a legal history is legal, and what is legal behind it may follow.
    ensures front { (bytes : ChangeList → FileName → List ℕ) (solo : Bool) (m : Machine) (xs ys : List Record) →
        IsLegalFrom bytes solo m (xs ++ ys) → IsLegalFrom bytes solo m xs }
    ensures joined { (bytes : ChangeList → FileName → List ℕ) (solo : Bool) (m : Machine) (xs ys : List Record) →
        IsLegalFrom bytes solo m xs → IsLegalFrom bytes solo (replay m (entries_of xs)) ys →
        IsLegalFrom bytes solo m (xs ++ ys) }
    // A file of complete steps keeps its bytes, whatever comes later.
    ensures last { (bytes : ChangeList → FileName → List ℕ) → AreLasting bytes → (name : FileName) (m : Machine)
        (entries : List Entry) → ArePossible m entries → name.range.to * m.size ≤ m.next →
        bytes (list_of (replay m entries)) name ≡ bytes (list_of m) name }
    // So what is visible, and what an open row sees, has for good the bytes that the list at its opening gives.
    ensures seen { (bytes : ChangeList → FileName → List ℕ) → AreLasting bytes → (m : Machine) (name : FileName)
        (entries : List Entry) → IsSound m → IsTrue (is_name name) → has m.visible (spelled name) ≡ true →
        ArePossible m entries → bytes (list_of (replay m entries)) name ≡ bytes (list_of m) name }
    ensures rows { (bytes : ChangeList → FileName → List ℕ) → AreLasting bytes → (m : Machine) (entries : List Entry)
        (row : Opening) (name : FileName) → IsSound m → ArePossible m entries → (was : WasOpened m entries row) →
        IsTrue (is_name name) → has row.names (spelled name) ≡ true →
        bytes (list_of (replay m entries)) name ≡ bytes (list_of (replay m was.front)) name }
{}
