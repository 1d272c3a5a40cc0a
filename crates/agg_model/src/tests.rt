ghost use Rattle.std.specs.Prelude.{◌≡◌, [], ◌∷◌, true, false, Some, None};
ghost use Rattle.agg_model.specs.Contents.{kv_contents, v_contents, ef_contents};
ghost use Rattle.agg_model.specs.Listed.{range, history, index, limited};
ghost use Rattle.agg_model.specs.Worked.{worked};

use super::*;
use agg_outside::{Bytes, ListOf, Memory};
use std::alloc::Global;
use std::test::Fail;

fn put(alloc: Global, tx: u64, key: &[u8], value: &[u8]) -> Result<Change, Memory> {
    Ok(Change {
        tx,
        entity: Entity::Accounts,
        key: Bytes::of(alloc, key)?,
        act: Act::Put(Bytes::of(alloc, value)?),
    })
}

// aa holds 01 from 5 on and 02 from 9 on; within 5 it held 07 for a moment.
fn two_values(alloc: Global) -> Result<Batch, Memory> {
    let mut batch = ListOf::new(alloc);
    batch.push(put(alloc, 5, b"\xaa", b"\x07")?)?;
    batch.push(put(alloc, 5, b"\xaa", b"\x01")?)?;
    batch.push(put(alloc, 9, b"\xaa", b"\x02")?)?;
    Ok(batch)
}

#[test]
fn a_change_counts_from_the_next_number_on(rt: HostRuntime) -> Result<(), Fail> {
    let alloc = rt.alloc();
    let batch = merge_repeats(alloc, two_values(alloc)?)?;
    assert_eq!(rt; batch.len(), 2);
    let expected: [(u64, Option<u8>); 5] = [
        (5, None),
        (6, Some(1)),
        (9, Some(1)),
        (10, Some(2)),
        (1000, Some(2)),
    ];
    for (number, byte) in expected {
        let value = plain_value_at(&batch, Entity::Accounts, b"\xaa", number);
        let first = match value {
            Some(bytes) => bytes.as_slice().first().copied(),
            None => None,
        };
        assert!(rt; first == byte, "at {number}");
    }
    Ok(())
}

#[test]
fn a_batch_is_refused_at_its_first_fault(rt: HostRuntime) -> Result<(), Fail> {
    let alloc = rt.alloc();
    let batch = two_values(alloc)?;
    assert!(rt; check_batch(5, 10, &batch) == Ok(()));
    assert!(rt; check_batch(6, 10, &batch) == Err(BatchError::Order { last: 5, got: 5 }));
    assert!(rt; check_batch(0, 9, &batch) == Err(BatchError::Far { far: 9, got: 9 }));
    let mut marks = ListOf::new(alloc);
    marks.push(Change {
        tx: 1,
        entity: Entity::Code,
        key: Bytes::of(alloc, b"")?,
        act: Act::Mark,
    })?;
    assert!(rt; check_batch(0, 9, &marks) == Err(BatchError::WrongAct(Entity::Code)));
    Ok(())
}

#[test]
fn a_change_without_bytes_has_content_64(rt: HostRuntime) -> Result<(), Fail> {
    let alloc = rt.alloc();
    let mut batch = ListOf::new(alloc);
    batch.push(Change {
        tx: 0,
        entity: Entity::Code,
        key: Bytes::from_vec(Vec::new(alloc)),
        act: Act::Del,
    })?;
    assert_eq!(rt; content(&batch), 64);
    Ok(())
}

#[test]
fn a_row_tells_its_act(rt: HostRuntime) -> Result<(), Fail> {
    let alloc = rt.alloc();
    let put = Act::Put(Bytes::of(alloc, b"\x01")?);
    assert_eq!(rt; put.number(), 0);
    assert!(rt; Act::of_number(0, Bytes::of(alloc, put.value())?) == Some(put));
    assert_eq!(rt; Act::Mark.number(), 2);
    assert!(rt; Act::of_number(1, Act::Del.into_value(alloc)) == Some(Act::Del));
    assert!(rt; Act::of_number(3, Act::Del.into_value(alloc)) == None);
    Ok(())
}

#[test]
fn entities_have_numbers_and_names(rt: HostRuntime) -> Result<(), Fail> {
    for number in 0..7 {
        let entity = Entity::of_number(number).ok_or("there are seven")?;
        assert_eq!(rt; entity.number(), number);
        assert!(rt; Entity::of_name(entity.name().as_bytes()) == Some(entity));
        assert_eq!(rt; entity.is_domain(), number < 3);
    }
    assert!(rt; Entity::of_number(7) == None);
    assert!(rt; Entity::of_name(b"Accounts") == None);
    Ok(())
}

// What files hold of `worked`, in steps of size 4.
fn contents_of_two_steps()
    ensures kv_first { kv_contents 4 worked Entity.Accounts 0 1 ≡ record { key = 170 ∷ []; value = 1 ∷ [] } ∷ [] }
    ensures kv_second { kv_contents 4 worked Entity.Accounts 1 2 ≡ record { key = 170 ∷ []; value = [] } ∷ record { key = 187 ∷ []; value = 3 ∷ [] } ∷ [] }
    // From step 0 on a deleted key is left out.
    ensures kv_both { kv_contents 4 worked Entity.Accounts 0 2 ≡ record { key = 187 ∷ []; value = 3 ∷ [] } ∷ [] }
    ensures v_second { v_contents 4 worked Entity.Accounts 1 2 ≡
        record { key = 170 ∷ []; tx = 5; value = 1 ∷ [] } ∷ record { key = 170 ∷ []; tx = 7; value = 2 ∷ [] } ∷ record { key = 187 ∷ []; tx = 6; value = [] } ∷ [] }
    ensures ef_second { ef_contents 4 worked Entity.Accounts 1 2 ≡ record { key = 170 ∷ []; items = 5 ∷ 7 ∷ [] } ∷ record { key = 187 ∷ []; items = 6 ∷ [] } ∷ [] }
{}

// What the listed reads answer over `worked`.
fn rows_of_worked()
    ensures before_the_deletion { range worked Entity.Accounts 7 None None ≡
        record { key = 170 ∷ []; value = Some (2 ∷ []) } ∷ record { key = 187 ∷ []; value = Some (3 ∷ []) } ∷ [] }
    ensures behind_the_deletion { range worked Entity.Accounts 8 None None ≡ record { key = 187 ∷ []; value = Some (3 ∷ []) } ∷ [] }
    ensures below_a_key { range worked Entity.Accounts 7 (Some (170 ∷ [])) (Some (187 ∷ [])) ≡ record { key = 170 ∷ []; value = Some (2 ∷ []) } ∷ [] }
    ensures changed_from_five { history worked Entity.Accounts 5 8 None ≡
        record { key = 170 ∷ []; value = Some (1 ∷ []) } ∷ record { key = 187 ∷ []; value = None } ∷ [] }
    ensures numbers { index worked Entity.Accounts (170 ∷ []) 1 8 false ≡ 5 ∷ 7 ∷ [] }
    ensures backwards { index worked Entity.Accounts (170 ∷ []) 1 8 true ≡ 7 ∷ 5 ∷ [] }
    ensures a_page { limited (λ n. n) 1 (index worked Entity.Accounts (170 ∷ []) 0 8 false) ≡ (0 ∷ [], Some 5) }
    ensures the_last_page { limited (λ n. n) 2 (index worked Entity.Accounts (170 ∷ []) 1 8 false) ≡ (5 ∷ 7 ∷ [], None) }
{}
