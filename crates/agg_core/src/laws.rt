//! What holds of the files of every list.
ghost use Rattle.std.specs.Prelude.{◌≡◌, ℕ, ◌≤◌, List, All, Contains, IsTrue};
ghost use Rattle.agg_model.specs.ChangeList.{ChangeList, IsChangeList, grown};
ghost use Rattle.agg_model.specs.declared.change.Change.{Change};
ghost use Rattle.agg_outside.specs.Files.{Files};
ghost use Rattle.merge_ranges.specs.Name.{is_name};
ghost use Rattle.merge_ranges.specs.declared.name.FileName.{FileName};
ghost use Rattle.agg_core.specs.Names.{complete_steps, written_names};
ghost use Rattle.agg_core.specs.Bytes.{file_bytes};
ghost use Rattle.agg_core.specs.Files.{MayStand, HasWritten, KeepsNamed, Covers};

/// What holds of the names of the files of a list.
pub fn written_laws()
    // They are names of the grammar, of kinds that their entities have and of complete steps.
    ensures within { (list : ChangeList) (name : FileName) → IsChangeList list →
        Contains (written_names list) name → IsTrue (is_name name) × MayStand list name }
{}

/// What holds of the bytes of the files of a list, and of a disk that has them.
pub fn file_laws()
    // Changes from the next number on leave the files of complete steps alone.
    ensures stays { (list : ChangeList) (batch : List Change) (name : FileName) →
        All (λ d. list.next ≤ d.tx) batch → MayStand list name →
        file_bytes (grown list batch) name ≡ file_bytes list name }
    // A disk with all files of a list covers its complete steps, and keeps nothing else.
    ensures covers { (list : ChangeList) (now : Files) → IsChangeList list → HasWritten list now →
        Covers (complete_steps list) now }
    ensures keeps { (list : ChangeList) (now : Files) → IsChangeList list → HasWritten list now →
        KeepsNamed list now }
{}
