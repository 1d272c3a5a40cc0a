ghost use Rattle.std.specs.Prelude.{◌≡◌, None, refl};
ghost use Rattle.std.proofs.Common.{rules, ap, ◌∙◌};

use super::*;
use agg_model::{Act, Batch, Change, Entity, StepRows};
use agg_outside::{Bytes, Keys, ListOf, Memory, Numbers};
use collate_step::{EntityFiles, collate};
use std::alloc::Global;
use std::rt::Clock;
use std::sync::{Arc, Wait};
use std::test::Fail;
use std::thread::Threads;

/// A window with one change, a put of one byte for every key, from the step `end` on; it tells a contract no changes.
#[derive(Drop)]
struct OnePut {
    tx: u64,
    value: u8,
    end: u64,
    at: u64,
}

impl Window for OnePut {
    ghost changes = { λ window. None };

    ghost first_step = { λ window. window.end };

    ghost next_number = { λ window. window.at };

    ghost faults = { λ window. 0 };

    ghost later = { λ first then. then ≡ first };

    fn end(&self) -> u64 {
        self.end
    }

    fn at(&self) -> u64 {
        self.at
    }

    fn last(
        &mut self,
        alloc: Global,
        entity: Entity,
        key: &[u8],
        before: u64,
    ) -> Result<Option<Act>, ReadError> {
        if self.tx >= before {
            return Ok(None);
        }
        match Bytes::of(alloc, &[self.value]) {
            Ok(value) => Ok(Some(Act::Put(value))),
            Err(_) => Err(ReadError::Memory),
        }
    }

    fn times(
        &mut self,
        alloc: Global,
        entity: Entity,
        key: &[u8],
        from: u64,
        to: u64,
        back: bool,
        limit: usize,
    ) -> Result<Numbers, ReadError> {
        let mut numbers = ListOf::new(alloc);
        if from <= self.tx && self.tx < to && limit > 0 {
            match numbers.push(self.tx) {
                Ok(()) => {}
                Err(_) => return Err(ReadError::Memory),
            }
        }
        Ok(numbers)
    }

    fn keys(
        &mut self,
        alloc: Global,
        entity: Entity,
        from: &[u8],
        tx_from: u64,
        tx_to: u64,
        limit: usize,
    ) -> Result<Keys, ReadError> {
        Ok(ListOf::new(alloc))
    }

    ghost later_self = { λ window. refl };

    ghost later_chain = { λ first then last one two. two ∙ one };

    ghost same_changes = { λ first then later. refl };

    ghost same_step = { λ first then later. ap (λ window. window.end) later };

    ghost same_number = { λ first then later. ap (λ window. window.at) later };

    ghost no_fall = { Prim.search rules };
}

// The byte of the value; 0 is none, and 255 an error.
fn told(value: Result<Option<Bytes>, ReadError>) -> u8 {
    match value {
        Ok(Some(bytes)) => match bytes.as_slice().first() {
            Some(byte) => *byte,
            None => 0,
        },
        Ok(None) => 0,
        Err(_) => 255,
    }
}

fn put(alloc: Global, changes: &mut Batch, tx: u64, act: Act) -> Result<(), Memory> {
    let key = Bytes::of(alloc, &[0xaa])?;
    changes.push(Change {
        tx,
        entity: Entity::Accounts,
        key,
        act,
    })
}

// The files of a step of four numbers with a put of 7 at 1 and a deletion at 3.
fn first_step<H: Threads + Wait + Clock + Sync>(
    rt: &H,
    alloc: Global,
) -> Result<Vec<Arc<EntityFiles>>, Memory> {
    let mut changes = ListOf::new(alloc);
    put(alloc, &mut changes, 1, Act::Put(Bytes::of(alloc, &[7])?))?;
    put(alloc, &mut changes, 3, Act::Del)?;
    let below: Vec<Arc<EntityFiles>> = Vec::new(alloc);
    let groups = collate(
        rt,
        alloc,
        &StepRows { step: 0, changes },
        below.as_slice(),
        4,
    )?;
    let mut files = Vec::new(alloc);
    for group in groups.into_vec() {
        files.push(Arc::new(alloc, group)?)?;
    }
    Ok(files)
}

#[test]
fn with_no_files_the_window_answers(rt: HostRuntime) -> Result<(), Fail> {
    let alloc = rt.alloc();
    let files: Vec<Arc<EntityFiles>> = Vec::new(alloc);
    let mut window = OnePut {
        tx: 5,
        value: 9,
        end: 0,
        at: 6,
    };
    let latest = read_latest(
        alloc,
        files.as_slice(),
        &mut window,
        4,
        Entity::Accounts,
        &[0xaa],
    );
    assert_eq!(rt; told(latest), 9);
    let at_it = read_as_of(
        alloc,
        files.as_slice(),
        &mut window,
        4,
        Entity::Accounts,
        5,
        &[0xaa],
    );
    assert_eq!(rt; told(at_it), 0);
    Ok(())
}

#[test]
fn below_their_end_the_files_answer(rt: HostRuntime) -> Result<(), Fail> {
    let alloc = rt.alloc();
    let files = first_step(&rt, alloc)?;
    let mut window = OnePut {
        tx: 5,
        value: 9,
        end: 1,
        at: 6,
    };
    let expected: [u8; 7] = [0, 0, 7, 7, 0, 0, 9];
    let mut n: u64 = 0;
    for value in expected {
        let found = read_as_of(
            alloc,
            files.as_slice(),
            &mut window,
            4,
            Entity::Accounts,
            n,
            &[0xaa],
        );
        assert_eq!(rt; told(found), value);
        n = n.saturating_add(1);
    }
    let latest = read_latest(
        alloc,
        files.as_slice(),
        &mut window,
        4,
        Entity::Accounts,
        &[0xaa],
    );
    assert_eq!(rt; told(latest), 9);
    Ok(())
}
