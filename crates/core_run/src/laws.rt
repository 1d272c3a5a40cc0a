//! The histories whose files have the bytes of the list, and what disks and keepers stand for.
ghost use Rattle.std.specs.Prelude.{◌≡◌, ◌≤◌, ◌^◌, ◌++◌, ℕ, Bool, true, List, IsTrue};
ghost use Rattle.agg_outside.specs.Files.{Files};
ghost use Rattle.agg_outside.specs.Rows.{Held};
ghost use Rattle.agg_model.specs.Batch.{content_of};
ghost use Rattle.agg_model.specs.declared.change.Change.{Change};
ghost use Rattle.agg_core.specs.Bytes.{file_bytes};
ghost use Rattle.agg_core.specs.Consistent.{IsConsistent, IsOpenable};
ghost use Rattle.merge_ranges.specs.declared.name.FileName.{FileName};
ghost use Rattle.merge_ranges.specs.Name.{is_name, spelled};
ghost use Rattle.core_machine.specs.declared.machine.Machine.{Machine};
ghost use Rattle.core_machine.specs.declared.machine.Opening.{Opening};
ghost use Rattle.core_machine.specs.Entries.{IsIngest, WasOpened, after_ingest, replay};
ghost use Rattle.core_machine.specs.Histories.{Record, Start, AreLasting, entries_of, replay_of};
ghost use Rattle.core_machine.specs.Sound.{IsSound, list_of};
ghost use Rattle.core_machine.specs.Texts.{has};
ghost use Rattle.core_run.specs.Consistent.{HasKeptRows, HasNoFile, no_rows, no_changes};
ghost use Rattle.core_run.specs.Legal.{IsLegalHistory};

/// What holds of the bytes of a list's files, and of the histories whose files have them.
pub fn bytes_laws()
    // Later changes leave the bytes of a file of complete steps alone.
    ensures lasting { AreLasting file_bytes }
    // So each file of a row that one of the entries opened has for good the bytes that the list at its opening gives.
    ensures rows { (solo : Bool) (start : Start) (history : List Record) (row : Opening) (name : FileName) →
        IsSound start.machine → IsLegalHistory solo start history →
        (was : WasOpened start.machine (entries_of history) row) → IsTrue (is_name name) →
        has row.names (spelled name) ≡ true →
        file_bytes (list_of (replay_of start history)) name ≡
        file_bytes (list_of (replay start.machine was.front)) name }
{}

/// Which disks and keepers stand for the list of a machine.
pub fn consistent_laws()
    // A disk without files of the grammar and a keeper without rows stand for the list without changes.
    ensures empty { (files : Files) (size : ℕ) → HasNoFile files → 1 ≤ size → size ≤ 2 ^ 32 →
        IsConsistent files no_rows (no_changes size) }
    // After an ingest what stands for the list has to be shown of the rows alone: the files are those of the longer list
    // too, and the next number is the one that opening gives.
    ensures ingest { (files : Files) (held now : Held) (m : Machine) (batch : List Change) →
        IsConsistent files held (list_of m) → IsIngest m batch → IsOpenable files now m.size →
        HasKeptRows files now (list_of (after_ingest m batch)) → content_of (m.changes ++ batch) ≤ 2 ^ 28 →
        IsConsistent files now (list_of (after_ingest m batch)) }
{}
