//! What follows of a list that a store holds.
ghost use Rattle.std.specs.Prelude.{◌≡◌, ◌*◌, ◌≤◌, ℕ, IsSomeAnd, map};
ghost use Rattle.std.specs.Option.{ForSome};
ghost use Rattle.agg_core.specs.Names.{single_steps};
ghost use Rattle.agg_core.specs.Rows.{HasRows};
ghost use Rattle.agg_model.specs.ChangeList.{ChangeList};
ghost use Rattle.merge_ranges.specs.CanonicalNames.{names_over};
ghost use Rattle.group_files.specs.NewFiles.{files_of_groups, new_names, names_for};
ghost use Rattle.state_store.specs.Store.{Holds, Keeps, Resumes, IsStore, steps_held};

use crate::store::Store;
use agg_outside::{Disk, Keeper};

/// What holds of a store that holds a list.
pub fn store_laws<D: Disk, K: Keeper>(store: &Store<D, K>)
    ensures rows { (list : ChangeList) → Holds D.Disk store.now list →
        IsSomeAnd store.now.hot.told (λ h. HasRows h list) }
    ensures keeps { (list : ChangeList) → Holds D.Disk store.now list → Keeps D.Disk store.now list }
    ensures resumes { (list : ChangeList) → Holds D.Disk store.now list → Resumes D.Disk store.now list }
    ensures rows_resumed { (list : ChangeList) → Resumes D.Disk store.now list →
        IsSomeAnd store.now.hot.told (λ h. HasRows h list) }
    // The files are named in the order of names.
    ensures names { (list : ChangeList) → Holds D.Disk store.now list →
        new_names (files_of_groups store.now.sets.current.groups) ≡ names_over (single_steps (steps_held store.now)) }
    ensures names_kept { (list : ChangeList) → Keeps D.Disk store.now list →
        names_for store.now.sets.current.groups ≡ names_over (single_steps (steps_held store.now)) }
{
    // That the rows and the groups are in order is a clause of these calls.
    let _present = store.hot.epoch();
    let _groups = store.sets.current().groups();
}
