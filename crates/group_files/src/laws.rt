//! What holds of the files of all groups.
ghost use Rattle.std.specs.Prelude.{◌≡◌, ℕ, ◌<◌, [], ◌∷◌, ◌++◌, List, All, IsTrue};
ghost use Rattle.agg_model.specs.ChangeList.{ChangeList};
ghost use Rattle.agg_model.specs.declared.entity.Entity.{Entity};
ghost use Rattle.agg_model.specs.declared.entity.Range.{Range};
ghost use Rattle.agg_core.specs.Files.{HasExactly};
ghost use Rattle.agg_outside.specs.Files.{Files};
ghost use Rattle.merge_ranges.specs.Name.{is_name};
ghost use Rattle.merge_ranges.specs.declared.name.FileName.{FileName};
ghost use Rattle.merge_ranges.specs.CanonicalNames.{names_over};
ghost use Rattle.collate_step.specs.Groups.{GroupFiles, IsGroup, group_of, step_range, step_groups};
ghost use Rattle.group_files.specs.NewFiles.{files_of, files_of_groups, new_names, names_for, IsOfList, AreApart, ArePublished};

/// What holds of the names of the files of groups.
pub fn name_laws()
    // A group has a file of each kind that its entity has.
    ensures group { (groups : List GroupFiles) → All IsGroup groups →
        new_names (files_of_groups groups) ≡ names_for groups }
    // The groups of a step have all its names, in the order of names, and no two have one name.
    ensures step { (list : ChangeList) (step : ℕ) →
        new_names (files_of_groups (step_groups list step)) ≡ names_over (step_range step ∷ []) }
    ensures apart { (list : ChangeList) (step : ℕ) → step < 4096 → AreApart (files_of_groups (step_groups list step)) }
{}

/// What holds of the bytes of the files of a list's groups.
pub fn publish_laws()
    ensures bytes { (list : ChangeList) (e : Entity) (r : Range) → All (IsOfList list) (files_of (group_of list e r)) }
    ensures step { (list : ChangeList) (step : ℕ) → All (IsOfList list) (files_of_groups (step_groups list step)) }
{}

/// What a disk has of a list once the files of a step are published.
pub fn exact_laws()
    // If it had exactly these files, it has exactly these and those of the step.
    ensures { (list : ChangeList) (step : ℕ) (names : List FileName) (before now : Files) → step < 4096 →
        All (λ n. IsTrue (is_name n)) names → HasExactly list names before →
        ArePublished (files_of_groups (step_groups list step)) before now →
        HasExactly list (names ++ names_over (step_range step ∷ [])) now }
{}
