use super::*;
use agg_outside::Memory;

const HISTORIES: u64 = 50;

const ENTRIES: u64 = 20;

// How many refused entries of a history are run, each behind those that were taken before it.
const REFUSED: u64 = 5;

const SEED: u64 = 20;

// An open row of the slow model.
#[derive(Drop)]
struct Seen {
    caller: u32,
    number: u64,
    at: u64,
    names: Vec<Bytes>,
}

// The machine with steps of one number, as lists in no order.
#[derive(Drop)]
struct Slow {
    next: u64,
    end: u64,
    rows: Vec<Seen>,
    present: Vec<Bytes>,
    visible: Vec<Bytes>,
}

fn nothing(alloc: Global) -> Slow {
    Slow {
        next: 0,
        end: 0,
        rows: Vec::new(alloc),
        present: Vec::new(alloc),
        visible: Vec::new(alloc),
    }
}

// One of so many, at random.
fn draw(state: &mut u64, count: u64) -> u64 {
    let after = state
        .wrapping_mul(6364136223846793005)
        .wrapping_add(1442695040888963407);
    *state = after;
    if count == 0 {
        return 0;
    }
    (after >> 33) % count
}

fn has(names: &[Bytes], name: &Bytes) -> bool {
    for other in names {
        if *other == *name {
            return true;
        }
    }
    false
}

fn has_each(names: &[Bytes], some: &[Bytes]) -> bool {
    for name in some {
        if !has(names, name) {
            return false;
        }
    }
    true
}

// Whether two lists without repeats have the same names.
fn are_equal(names: &[Bytes], others: &[Bytes]) -> bool {
    names.len() == others.len() && has_each(names, others)
}

fn add(alloc: Global, names: &mut Vec<Bytes>, more: &[Bytes]) -> Result<(), Memory> {
    for name in more {
        if !has(names.as_slice(), name) {
            names.push(name.copy(alloc)?)?;
        }
    }
    Ok(())
}

// Copies of the names that aren't among others.
fn without(alloc: Global, names: &[Bytes], gone: &[Bytes]) -> Result<Vec<Bytes>, Memory> {
    let mut kept = Vec::new(alloc);
    for name in names {
        if !has(gone, name) {
            kept.push(name.copy(alloc)?)?;
        }
    }
    Ok(kept)
}

fn copies(alloc: Global, names: &[Bytes]) -> Result<Vec<Bytes>, Memory> {
    without(alloc, names, &[])
}

fn has_open(rows: &[Seen], caller: u32, number: u64) -> bool {
    for row in rows {
        if row.caller == caller && row.number == number {
            return true;
        }
    }
    false
}

fn is_seen(slow: &Slow, name: &Bytes) -> bool {
    for row in slow.rows.as_slice() {
        if has(row.names.as_slice(), name) {
            return true;
        }
    }
    has(slow.visible.as_slice(), name)
}

fn is_any_seen(slow: &Slow, names: &[Bytes]) -> bool {
    for name in names {
        if is_seen(slow, name) {
            return true;
        }
    }
    false
}

fn entity_at(place: u64) -> Entity {
    match place {
        0 => Entity::Accounts,
        1 => Entity::Storage,
        2 => Entity::Code,
        3 => Entity::LogAddrs,
        4 => Entity::LogTopics,
        5 => Entity::TracesFrom,
        _ => Entity::TracesTo,
    }
}

fn names_of(alloc: Global, entity: Entity, cut: &Cut) -> Result<Names, Memory> {
    let mut set: NameSet = BTreeSet::new(alloc);
    add_entity(alloc, &mut set, entity, cut)?;
    list_of(alloc, set)
}

// So many ranges of one size, one behind the other.
fn cut_into(alloc: Global, from: u64, size: u64, count: u64) -> Result<Cut, Memory> {
    let mut cut = ListOf::new(alloc);
    let mut at = from;
    for _part in 0..count {
        let to = at.saturating_add(size);
        cut.push(Range { from: at, to })?;
        at = to;
    }
    Ok(cut)
}

// The names once all complete steps, at most 127, are merged: the greatest ranges first.
fn merged_names(alloc: Global, complete: u64) -> Result<Names, Memory> {
    let mut cut = ListOf::new(alloc);
    let mut from: u64 = 0;
    for size in [64, 32, 16, 8, 4, 2, 1] {
        let to = from.saturating_add(size);
        if to <= complete {
            cut.push(Range { from, to })?;
            from = to;
        }
    }
    let set = names_over(alloc, &cut)?;
    list_of(alloc, set)
}

// The next number, one before it or one behind it.
fn try_ingest(
    alloc: Global,
    state: &mut u64,
    slow: &mut Slow,
    entries: &mut Vec<Entry>,
) -> Result<bool, Memory> {
    let tx = match draw(state, 4) {
        0 => slow.next.saturating_sub(1),
        1 => slow.next.saturating_add(1),
        _ => slow.next,
    };
    entries.push(ingest(alloc, tx)?)?;
    if tx < slow.next {
        return Ok(false);
    }
    slow.next = tx.saturating_add(1);
    Ok(true)
}

// A row with the visible names, or with all but one.
fn try_open(
    alloc: Global,
    state: &mut u64,
    slow: &mut Slow,
    entries: &mut Vec<Entry>,
) -> Result<bool, Memory> {
    let caller: u32 = if draw(state, 2) == 0 { 1 } else { 2 };
    let number = draw(state, 2);
    let mut names = copies(alloc, slow.visible.as_slice())?;
    if draw(state, 4) == 0 {
        let _name = names.pop();
    }
    let whole = names.len() == slow.visible.len();
    let names = ListOf::from_vec(names);
    entries.push(Entry::Open {
        caller,
        number,
        names,
    })?;
    if !whole || has_open(slow.rows.as_slice(), caller, number) {
        return Ok(false);
    }
    let names = copies(alloc, slow.visible.as_slice())?;
    slow.rows.push(Seen {
        caller,
        number,
        at: slow.next,
        names,
    })?;
    Ok(true)
}

fn try_close(
    alloc: Global,
    state: &mut u64,
    slow: &mut Slow,
    entries: &mut Vec<Entry>,
) -> Result<bool, Memory> {
    let caller: u32 = if draw(state, 2) == 0 { 1 } else { 2 };
    let number = draw(state, 2);
    entries.push(Entry::Close { caller, number })?;
    let may = has_open(slow.rows.as_slice(), caller, number);
    let mut kept = Vec::new(alloc);
    for row in slow.rows.as_slice() {
        if row.caller != caller || row.number != number {
            let names = copies(alloc, row.names.as_slice())?;
            kept.push(Seen {
                caller: row.caller,
                number: row.number,
                at: row.at,
                names,
            })?;
        }
    }
    slow.rows = kept;
    Ok(may)
}

// The next step, or one of the first four.
fn try_collation(
    alloc: Global,
    state: &mut u64,
    slow: &mut Slow,
    entries: &mut Vec<Entry>,
) -> Result<bool, Memory> {
    let step = match draw(state, 4) {
        0 => draw(state, 4),
        _ => slow.end,
    };
    let added = all_names(alloc, step, step.saturating_add(1))?;
    let may = step == slow.end && step < slow.next;
    if may {
        slow.end = step.saturating_add(1);
        add(alloc, &mut slow.present, added.as_slice())?;
        add(alloc, &mut slow.visible, added.as_slice())?;
    }
    entries.push(Entry::Publish {
        caller: 2,
        added,
        replaced: ListOf::new(alloc),
    })?;
    Ok(may)
}

// One entity's groups of a range become one; one time in eight the last of them is left out.
fn try_merge(
    alloc: Global,
    state: &mut u64,
    slow: &mut Slow,
    entries: &mut Vec<Entry>,
) -> Result<bool, Memory> {
    let entity = entity_at(draw(state, 7));
    let (size, part, count): (u64, u64, u64) = match draw(state, 3) {
        0 => (4, 2, 2),
        1 => (4, 1, 4),
        _ => (2, 1, 2),
    };
    let from = draw(state, 2).saturating_mul(size);
    let fewer = draw(state, 8) == 0;
    let count: u64 = if fewer {
        count.saturating_sub(1)
    } else {
        count
    };
    let whole = cut_of(alloc, from, from.saturating_add(size))?;
    let added = names_of(alloc, entity, &whole)?;
    let parts = cut_into(alloc, from, part, count)?;
    let replaced = names_of(alloc, entity, &parts)?;
    let may = !fewer && has_each(slow.visible.as_slice(), replaced.as_slice());
    if may {
        slow.visible = without(alloc, slow.visible.as_slice(), replaced.as_slice())?;
        add(alloc, &mut slow.present, added.as_slice())?;
        add(alloc, &mut slow.visible, added.as_slice())?;
    }
    entries.push(Entry::Publish {
        caller: 2,
        added,
        replaced,
    })?;
    Ok(may)
}

// The names of a group over the first four steps.
fn any_group(alloc: Global, state: &mut u64) -> Result<Names, Memory> {
    let entity = entity_at(draw(state, 7));
    let (size, count) = match draw(state, 3) {
        0 => (1, 4),
        1 => (2, 2),
        _ => (4, 1),
    };
    let from = draw(state, count).saturating_mul(size);
    let cut = cut_of(alloc, from, from.saturating_add(size))?;
    names_of(alloc, entity, &cut)
}

fn try_stray(
    alloc: Global,
    state: &mut u64,
    slow: &mut Slow,
    entries: &mut Vec<Entry>,
) -> Result<bool, Memory> {
    let names = any_group(alloc, state)?;
    let may = !is_any_seen(slow, names.as_slice());
    if may {
        add(alloc, &mut slow.present, names.as_slice())?;
    }
    entries.push(Entry::Stray { caller: 2, names })?;
    Ok(may)
}

// The first name of a group.
fn try_sweep(
    alloc: Global,
    state: &mut u64,
    slow: &mut Slow,
    entries: &mut Vec<Entry>,
) -> Result<bool, Memory> {
    let names = any_group(alloc, state)?;
    let Some(name) = names.get(0) else {
        entries.push(Entry::Work { caller: 2 })?;
        return Ok(true);
    };
    let may = has(slow.present.as_slice(), name) && !is_seen(slow, name);
    let name = name.copy(alloc)?;
    if may {
        let mut gone = Vec::new(alloc);
        gone.push(name.copy(alloc)?)?;
        slow.present = without(alloc, slow.present.as_slice(), gone.as_slice())?;
    }
    entries.push(Entry::Sweep { caller: 2, name })?;
    Ok(may)
}

fn try_settled(alloc: Global, slow: &mut Slow, entries: &mut Vec<Entry>) -> Result<bool, Memory> {
    let names = copies(alloc, slow.visible.as_slice())?;
    let merged = merged_names(alloc, slow.next)?;
    entries.push(Entry::Settled {
        caller: 2,
        names: ListOf::from_vec(names),
    })?;
    Ok(are_equal(slow.visible.as_slice(), merged.as_slice()))
}

// Draws an entry, puts it behind the others, and says whether it is possible there.
fn try_entry(
    alloc: Global,
    state: &mut u64,
    slow: &mut Slow,
    entries: &mut Vec<Entry>,
) -> Result<bool, Memory> {
    match draw(state, 16) {
        0 | 1 => try_ingest(alloc, state, slow, entries),
        2 => try_open(alloc, state, slow, entries),
        3 => try_close(alloc, state, slow, entries),
        4 | 5 | 6 => try_collation(alloc, state, slow, entries),
        7 | 8 | 9 | 10 => try_merge(alloc, state, slow, entries),
        11 => try_stray(alloc, state, slow, entries),
        12 | 13 => try_sweep(alloc, state, slow, entries),
        14 => try_settled(alloc, slow, entries),
        _ => {
            entries.push(Entry::Work { caller: 2 })?;
            Ok(true)
        }
    }
}

// Whether the last entry is the first that is refused.
fn is_last_refused(alloc: Global, entries: &[Entry]) -> bool {
    match place_of(run_core(alloc, empty(alloc, 1), entries)) {
        Some(place) => place.saturating_add(1) == entries.len() as u64,
        None => false,
    }
}

fn are_rows(opened: &[Opening], rows: &[Seen]) -> bool {
    for (opening, row) in opened.iter().zip(rows.iter()) {
        if opening.caller != row.caller || opening.number != row.number || opening.at != row.at {
            return false;
        }
        if !are_equal(opening.names.as_slice(), row.names.as_slice()) {
            return false;
        }
    }
    opened.len() == rows.len()
}

fn ends_as(alloc: Global, entries: &[Entry], slow: &Slow) -> bool {
    match run_core(alloc, empty(alloc, 1), entries) {
        Ok(machine) => {
            machine.next == slow.next
                && are_equal(machine.present.as_slice(), slow.present.as_slice())
                && are_equal(machine.visible.as_slice(), slow.visible.as_slice())
                && are_rows(machine.opened.as_slice(), slow.rows.as_slice())
        }
        Err(_) => false,
    }
}

// Draws entries, and answers whether each was taken or refused as the slow model says, and how many were refused.
fn run_random(alloc: Global, state: &mut u64) -> Result<(bool, u64), Memory> {
    let mut slow = nothing(alloc);
    let mut entries = Vec::new(alloc);
    let mut same = true;
    let mut refused: u64 = 0;
    for _entry in 0..ENTRIES {
        if !try_entry(alloc, state, &mut slow, &mut entries)? {
            if refused < REFUSED {
                same = same && is_last_refused(alloc, entries.as_slice());
            }
            let _last = entries.pop();
            refused = refused.saturating_add(1);
        }
    }
    let ends = ends_as(alloc, entries.as_slice(), &slow);
    Ok((same && ends, refused))
}

#[test]
fn random_entries_lead_where_a_slow_model_goes(rt: HostRuntime) -> Result<(), Fail> {
    let mut state = SEED;
    let mut refused: u64 = 0;
    for _history in 0..HISTORIES {
        let (same, count) = run_random(rt.alloc(), &mut state)?;
        assert!(rt; same);
        refused = refused.saturating_add(count);
    }
    assert!(rt; refused > 200 && refused < 800);
    Ok(())
}
