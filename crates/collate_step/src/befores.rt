//! The value before each change of a step.
ghost use Rattle.std.specs.Prelude.{◌≡◌, ◌++◌, ◌-◌, nat_eq, length, slice_get, None, IfOk};
ghost use Rattle.std.specs.Cmp.Lexicographic.{pointwise};
ghost use Rattle.std.specs.Option.{option_copied};
ghost use Rattle.std.specs.Thread.{IsSync};
ghost use Rattle.agg_model.specs.ChangeList.{value_of};
ghost use Rattle.agg_model.specs.Contents.{word_of};
ghost use Rattle.content_laws.specs.Steps.{value_behind, befores_behind};

use agg_model::{Before, Befores, Change};
use agg_outside::{Bytes, Memory};
use std::alloc::Global;
use std::thread::{Threads, join};

/// So many changes are worth a second thread.
const MUCH: usize = 16_384;

/// Where the values before a step are looked up.
pub(crate) trait Earlier {
    ghost use Rattle.std.specs.Prelude.{◌≡◌, ℕ, List, Option};
    ghost use Rattle.agg_model.specs.Contents.{word_of};

    ghost found: { Self → List ℕ → Option (List ℕ) };

    /// The value of the key, which is empty where it has none.
    fn word(&self, key: &[u8]) -> &[u8]
        ensures { result.now ≡ word_of (found self.now key.now) };
}

fn is_of(change: &Change, key: &Bytes) -> bool
    ensures { result ≡ pointwise nat_eq change.now.key key.now }
{
    change.key.as_slice() == key.as_slice()
}

// What the key of a change holds just before it, where this change stands before it.
fn word_before<'a, E: Earlier>(earlier: &'a E, last: Option<&'a Change>, key: &Bytes) -> &'a [u8]
    ensures { result.now ≡ word_of (value_behind (E.found earlier.now) (option_copied last.entry) key.now) }
{
    match last {
        Some(change) if is_of(change, key) => change.act.value(),
        _ => earlier.word(key.as_slice()),
    }
}

fn before_of(alloc: Global, change: &Change, word: &[u8]) -> Result<Before, Memory>
    ensures { IfOk result (λ before. before ≡ record { key = change.now.key; tx = change.now.tx; value = word.now }) }
{
    let key = change.key.copy(alloc)?;
    let value = Bytes::of(alloc, word)?;
    Ok(Before {
        key,
        tx: change.tx,
        value,
    })
}

// The sorted changes of an entity, each with what its key held just before it, where this change stands before them. A
// key is looked up once.
fn befores_after<E: Earlier>(
    alloc: Global,
    earlier: &E,
    last: Option<&Change>,
    changes: &[Change],
) -> Result<Befores, Memory>
    ensures { IfOk result (λ befores. befores
        ≡ befores_behind (E.found earlier.now) (option_copied last.entry) changes.now) }
{
    let mut befores = Befores::new(alloc);
    let mut last = last;
    for change in changes {
        let word = word_before(earlier, last, &change.key);
        befores.push(before_of(alloc, change, word)?)?;
        last = Some(change);
    }
    Ok(befores)
}

// Befores, and others behind them.
fn with_others(befores: Befores, others: Befores) -> Result<Befores, Memory>
    ensures { IfOk result (λ all. all ≡ befores ++ others) }
{
    let mut all = befores.into_vec();
    let mut others = others.into_vec();
    all.append(&mut others)?;
    Ok(Befores::from_vec(all))
}

// The sorted changes behind others, each with what its key held just before it: those of both halves side by side where
// there are many.
fn befores_beside<R: Threads + Sync, E: Earlier + Sync>(
    rt: &R,
    alloc: Global,
    earlier: &E,
    others: &[Change],
    changes: &[Change],
) -> Result<Befores, Memory>
    ensures { IfOk result (λ befores. befores ≡ befores_behind (E.found earlier.now)
        (slice_get others.now (length others.now - 1)) changes.now) }
{
    if changes.len() < MUCH {
        return befores_after(alloc, earlier, others.last(), changes);
    }
    let (first, second) = changes.split_at(changes.len() / 2);
    let (befores, later) = join(
        rt,
        || -> Result<Befores, Memory>
            requires { IsSync R.row × IsSync E.row }
            ensures { IfOk result (λ befores. befores ≡ befores_behind (E.found earlier.entry.now)
                (slice_get others.entry.now (length others.entry.now - 1)) first.entry.now) }
        { befores_beside(rt, alloc, earlier, others, first) },
        || -> Result<Befores, Memory>
            requires { IsSync R.row × IsSync E.row }
            ensures { IfOk result (λ befores. befores ≡ befores_behind (E.found earlier.entry.now)
                (slice_get first.entry.now (length first.entry.now - 1)) second.entry.now) }
        { befores_beside(rt, alloc, earlier, first, second) },
    );
    with_others(befores?, later?)
}

/// The sorted changes of an entity, each with what its key held just before it. Where there are many, parts of them are
/// looked up side by side. A key is looked up once.
pub(crate) fn step_befores<R: Threads + Sync, E: Earlier + Sync>(
    rt: &R,
    alloc: Global,
    earlier: &E,
    changes: &[Change],
) -> Result<Befores, Memory>
    ensures { IfOk result (λ befores. befores ≡ befores_behind (E.found earlier.now) None changes.now) }
{
    befores_beside(rt, alloc, earlier, &[], changes)
}
