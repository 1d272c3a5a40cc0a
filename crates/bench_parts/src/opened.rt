//! Texts of many lists: each opened without a walk, and one number sought in it.
ghost use Rattle.std.specs.Prelude.{◌<◌, ◌^◌, length};
ghost use Rattle.elias_fano.specs.Spelling.{IsSpelled};

use crate::lists::{drawn, rising_by, text_of};
use agg_outside::{Bytes, Memory};
use elias_fano::EfList;
use std::alloc::Global;
use std::marker::Model;

/// `count` lists, each of `least` to `most` numbers.
#[derive(Clone, Copy)]
pub struct Lists {
    pub count: u64,
    pub least: u64,
    pub most: u64,
}

/// The text of a list, and its last number.
#[derive(Drop)]
struct Text {
    bytes: Bytes,
    last: u64,
}

impl Model for Text {
    ghost use Rattle.std.specs.Prelude.{List, ℕ, ◌<◌, ◌^◌, length};
    ghost use Rattle.elias_fano.specs.Spelling.{IsSpelled};

    ghost Value = { List ℕ };

    ghost view = { λ it. it.bytes };

    ghost invariant = { λ it. IsSpelled it.bytes × (length it.bytes < 2 ^ 60) };
}

impl Text {
    fn list(&self) -> EfList<'_> {
        EfList::of(self.bytes.as_slice())
    }
}

fn texts_of(alloc: Global, lists: Lists) -> Result<Vec<Text>, Memory> {
    let mut texts = Vec::new(alloc);
    let mut draw = 1u64;
    for _ in 0..lists.count {
        draw = drawn(draw);
        let spread = lists.most.saturating_sub(lists.least).saturating_add(1);
        let items = rising_by(alloc, lists.least.saturating_add(draw % spread), &mut draw)?;
        let Some(bytes) = text_of(alloc, items.as_slice())? else {
            continue;
        };
        if bytes.as_slice().len() < 1 << 60 {
            let last = items.last().copied().unwrap_or(0);
            texts.push(Text { bytes, last })?;
        }
    }
    Ok(texts)
}

/// The sum of what is found, where each list is opened `rounds` times and one number sought in it
/// each time.
pub fn sum_of_opened(alloc: Global, lists: Lists, rounds: u64) -> Result<u64, Memory> {
    let texts = texts_of(alloc, lists)?;
    let mut sum = 0u64;
    let mut draw = 1u64;
    for _ in 0..rounds {
        for text in &texts {
            draw = drawn(draw);
            if let Some((place, item)) = text.list().seek(draw % text.last.max(1)) {
                sum = sum.wrapping_add(place).wrapping_add(item);
            }
        }
    }
    Ok(sum)
}
