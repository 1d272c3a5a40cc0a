ghost use Rattle.std.specs.Prelude.{◌≡◌, ◌≤◌};
ghost use Rattle.merge_ranges.specs.declared.name.FileName.{FileName};
ghost use Rattle.visible_files.specs.Held.{count_of};

use crate::groups::{Files, begun, merged};
use agg_model::{Entity, FileKind, Range};
use merge_ranges::{DiskName, FileName};
use std::alloc::Global;
use std::test::Fail;
use visible_files::FileSets;

// Groups of one step each, over so many steps.
fn started(alloc: Global, steps: u64) -> Result<FileSets<Files>, Fail> {
    let Some(sets) = begun(alloc, steps)? else {
        return Err(Fail::from("no cuts"));
    };
    Ok(sets)
}

// Accounts in one range over both steps, published.
fn merge_accounts(alloc: Global, sets: &mut FileSets<Files>) -> Result<(), Fail>
    ensures { (n : FileName) → count_of sets.new.held n ≡ count_of sets.old.held n }
{
    let is_merged = merged(alloc, sets, Entity::Accounts)?;
    if !is_merged {
        return Err(Fail::from("nothing to merge"));
    }
    Ok(())
}

// How many names `retired` gives, each dropped.
fn swept(sets: &mut FileSets<Files>) -> u64
    ensures { (n : FileName) → count_of sets.new.held n ≡ count_of sets.old.held n }
{
    for count in 0..1000u64 {
        let Some(name) = sets.retired() else {
            return count;
        };
        sets.drop_file(name);
    }
    1000
}

fn account_file(to: u64, kind: FileKind, temp: bool) -> DiskName {
    DiskName {
        name: FileName {
            entity: Entity::Accounts,
            range: Range { from: 0, to },
            kind,
        },
        temp,
    }
}

#[test]
fn strays_are_named_in_order_and_once(rt: HostRuntime) -> Result<(), Fail> {
    let mut sets = started(rt.alloc(), 0)?;
    sets.reserve(1)?;
    sets.stray(account_file(1, FileKind::V, false));
    sets.stray(account_file(1, FileKind::Kv, true));
    sets.stray(account_file(1, FileKind::V, false));
    let first = sets.retired().ok_or("no stray")?;
    assert_eq!(rt; first, account_file(1, FileKind::Kv, true));
    sets.drop_file(first);
    let second = sets.retired().ok_or("one stray")?;
    assert_eq!(rt; second, account_file(1, FileKind::V, false));
    sets.drop_file(second);
    assert!(rt; sets.retired().is_none());
    Ok(())
}

#[test]
fn an_empty_set_is_pinned_and_unpinned(rt: HostRuntime) -> Result<(), Fail> {
    let mut sets = started(rt.alloc(), 0)?;
    let shared = sets.share()?;
    assert_eq!(rt; shared.end(), 0);
    assert_eq!(rt; sets.current().groups().len(), 0);
    let pinned = sets.pin()?;
    sets.unpin(pinned);
    assert!(rt; sets.retired().is_none());
    Ok(())
}

#[test]
fn the_older_of_two_transactions_closes_first(rt: HostRuntime) -> Result<(), Fail> {
    let mut sets = started(rt.alloc(), 2)?;
    let before = sets.pin()?;
    merge_accounts(rt.alloc(), &mut sets)?;
    let after = sets.pin()?;
    assert_eq!(rt; before.groups().len(), 14);
    assert_eq!(rt; after.groups().len(), 13);
    assert_eq!(rt; swept(&mut sets), 0);
    sets.unpin(before);
    assert_eq!(rt; swept(&mut sets), 14);
    sets.unpin(after);
    assert_eq!(rt; swept(&mut sets), 0);
    Ok(())
}

#[test]
fn the_newer_of_two_transactions_closes_first(rt: HostRuntime) -> Result<(), Fail> {
    let mut sets = started(rt.alloc(), 2)?;
    let before = sets.pin()?;
    merge_accounts(rt.alloc(), &mut sets)?;
    let after = sets.pin()?;
    sets.unpin(after);
    assert_eq!(rt; swept(&mut sets), 0);
    sets.unpin(before);
    assert_eq!(rt; swept(&mut sets), 14);
    Ok(())
}

#[test]
fn a_file_is_kept_until_the_last_of_three_pins(rt: HostRuntime) -> Result<(), Fail> {
    let mut sets = started(rt.alloc(), 2)?;
    let (first, second, third) = (sets.pin()?, sets.pin()?, sets.pin()?);
    merge_accounts(rt.alloc(), &mut sets)?;
    sets.unpin(second);
    sets.unpin(first);
    assert_eq!(rt; swept(&mut sets), 0);
    sets.unpin(third);
    assert_eq!(rt; swept(&mut sets), 14);
    Ok(())
}

#[test]
fn a_stray_of_a_failed_publish_stays_once_it_is_visible(rt: HostRuntime) -> Result<(), Fail> {
    let mut sets = started(rt.alloc(), 2)?;
    sets.reserve(1)?;
    sets.stray(account_file(2, FileKind::Kv, false));
    sets.stray(account_file(2, FileKind::Bt, true));
    merge_accounts(rt.alloc(), &mut sets)?;
    assert_eq!(rt; swept(&mut sets), 15);
    Ok(())
}

// As many strays as there is room for.
fn fill(sets: &mut FileSets<Files>)
    requires { 14 ≤ sets.old.spare }
{
    for to in 1..15u64 {
        sets.stray(account_file(to, FileKind::Ef, false));
    }
}

#[test]
fn room_for_one_group_takes_fourteen_names(rt: HostRuntime) -> Result<(), Fail> {
    let mut sets = started(rt.alloc(), 0)?;
    sets.reserve(1)?;
    fill(&mut sets);
    assert_eq!(rt; swept(&mut sets), 14);
    Ok(())
}
