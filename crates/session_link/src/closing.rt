//! The end of a link.
ghost use Rattle.std.specs.Prelude.{◌≡◌, ℕ, ◌+◌};
ghost use Rattle.agg_model.specs.ChangeList.{ChangeList};
ghost use Rattle.merge_ranges.specs.declared.name.FileName.{FileName};
ghost use Rattle.visible_files.specs.Held.{count_of};
ghost use Rattle.state_store.specs.Store.{IsStore, Holds, Goes, ArePinned, pins_of};
ghost use Rattle.session_link.specs.Links.{views_of};

use crate::link::Transaction;
use agg_outside::{Disk, Keeper, ListOf};
use state_store::Store;

/// Closes the transactions that are still open.
pub fn close_all<D: Disk, K: Keeper>(transactions: ListOf<Transaction>, store: &mut Store<D, K>)
    requires { ArePinned store.old.sets.held (views_of transactions) }
    // Each name is counted once less for each of them that pinned it.
    ensures unpins { (n : FileName) → count_of store.new.sets.held n + pins_of (views_of transactions) n
        ≡ count_of store.old.sets.held n }
    ensures current { store.new.sets.current ≡ store.old.sets.current }
    ensures others { store.new ≡ record store.old { sets = store.new.sets } }
    ensures sound { (most : ℕ) → IsStore most store.old → IsStore most store.new }
    ensures holds { (list : ChangeList) → Holds D.Disk store.old list → Holds D.Disk store.new list }
    ensures goes { Goes D.Disk store.old store.new }
{
    for transaction in transactions.into_vec() {
        let Transaction { view, .. } = transaction;
        store.close(view);
    }
}
