//! The changes behind the files, as reads see them.
ghost use Rattle.std.specs.Prelude.{◌≡◌, ℕ, ◌≤◌, List, Option, take, IfSome, IfOk};
ghost use Rattle.agg_outside.specs.Counts.{HasCause};
ghost use Rattle.agg_model.specs.declared.change.Change.{Change};
ghost use Rattle.agg_model.specs.ChangeList.{last_change};
ghost use Rattle.hot_keeper.specs.Windows.{act_of_change, window_times, window_keys};

use agg_model::{Act, Entity};
use agg_outside::{Keys, Numbers};
use hot_keeper::ReadError;
use std::alloc::Global;

/// A list of changes, by entity, key and number, with the step that they begin at and the number that they end at.
///
/// A contract can name the changes only if the window tells them. No call changes them, nor where they begin and end.
pub trait Window {
    /// The changes, where it tells them.
    ghost changes: { Self → Option (List Change) };

    /// The step that they begin at.
    ghost first_step: { Self → ℕ };

    /// The number that they are below.
    ghost next_number: { Self → ℕ };

    /// How often what is behind the window has failed.
    ghost faults: { Self → ℕ };

    /// The second is a later state of the first.
    ghost later: { Self → Self → Type 0 };

    /// The step that the changes begin at.
    fn end(&self) -> u64
        ensures { result ≡ first_step self.now };

    /// The number that the changes are below.
    fn at(&self) -> u64
        ensures { result ≡ next_number self.now };

    /// What the last change of the key below `before` did.
    fn last(
        &mut self,
        alloc: Global,
        entity: Entity,
        key: &[u8],
        before: u64,
    ) -> Result<Option<Act>, ReadError>
        ensures act { IfSome (changes self.old) (λ cs. IfOk result
            (λ act. act ≡ act_of_change (last_change cs entity key.now before))) }
        ensures later { later self.old self.new }
        ensures cause { HasCause ReadError.Keeper (faults self.old) (faults self.new) result };

    /// The first `limit` numbers from `from` on and below `to` at which the key changed, from the last one down
    /// where `back`.
    fn times(
        &mut self,
        alloc: Global,
        entity: Entity,
        key: &[u8],
        from: u64,
        to: u64,
        back: bool,
        limit: usize,
    ) -> Result<Numbers, ReadError>
        ensures numbers { IfSome (changes self.old) (λ cs. IfOk result
            (λ numbers. numbers ≡ take limit (window_times back cs entity key.now from to))) }
        ensures later { later self.old self.new }
        ensures cause { HasCause ReadError.Keeper (faults self.old) (faults self.new) result };

    /// The first `limit` keys of the entity not below `from` that changed from `tx_from` on and below `tx_to`.
    fn keys(
        &mut self,
        alloc: Global,
        entity: Entity,
        from: &[u8],
        tx_from: u64,
        tx_to: u64,
        limit: usize,
    ) -> Result<Keys, ReadError>
        ensures keys { IfSome (changes self.old) (λ cs. IfOk result
            (λ keys. keys ≡ take limit (window_keys cs entity from.now tx_from tx_to))) }
        ensures later { later self.old self.new }
        ensures cause { HasCause ReadError.Keeper (faults self.old) (faults self.new) result };

    /// Each state is later than itself, and what is later than a later one is later.
    ghost later_self: { (window : Self) → later window window };

    ghost later_chain: { (first then last : Self) → later first then → later then last → later first last };

    /// A later state has the same changes, between the same ends.
    ghost same_changes: { (first then : Self) → later first then → changes then ≡ changes first };

    ghost same_step: { (first then : Self) → later first then → first_step then ≡ first_step first };

    ghost same_number: { (first then : Self) → later first then → next_number then ≡ next_number first };

    /// Faults are never counted down.
    ghost no_fall: { (first then : Self) → later first then → faults first ≤ faults then };
}
