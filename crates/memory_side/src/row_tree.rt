//! Rows in a tree, each at its id.
ghost use Rattle.std.specs.Prelude.{◌≡◌, Some, IsTrue, IfOk, OnOk, OnErr, take};
ghost use Rattle.agg_outside.specs.Rows.{id_cmp, ascends, first_from, last_before, rows_from};
ghost use Rattle.memory_side.specs.RowTree.{rows_of, body_of, slots_ascend};
ghost use Rattle.std.specs.BTreeMap.{insert_entry};

use crate::row_body::RowBody;
use agg_outside::{Memory, Row, RowId, Rowlist};
use std::alloc::Global;
use std::collections::BTreeMap;

pub type RowTree = BTreeMap<RowId, RowBody>;

/// A tree with copies of these rows.
pub fn tree_of(alloc: Global, rows: &[Row]) -> Result<RowTree, Memory>
    requires { IsTrue (ascends rows.now) }
    ensures { IfOk result (λ tree. rows_of tree.entries ≡ rows.now) }
{
    let mut tree = RowTree::new(alloc);
    for row in rows {
        put_row(alloc, &mut tree, row)?;
    }
    Ok(tree)
}

/// What a tree's type says of its keys, for a caller that changes it next.
pub fn slots_in_order(rows: &RowTree)
    ensures slots { IsTrue (slots_ascend rows.now.entries) }
    ensures rows { IsTrue (ascends (rows_of rows.now.entries)) }
{
    let _keys = rows.keys();
}

/// Puts a copy of the row at its id.
pub fn put_row(alloc: Global, tree: &mut RowTree, row: &Row) -> Result<(), Memory>
    ensures put { OnOk result (tree.new.entries ≡ insert_entry id_cmp tree.old.entries row.now.id (body_of row.now)) }
    ensures err { OnErr result (tree.new.entries ≡ tree.old.entries) }
    ensures ascend { OnOk result (IsTrue (slots_ascend tree.old.entries)) }
{
    let id = row.id.copy(alloc)?;
    let value = row.value.copy(alloc)?;
    let body = RowBody {
        killed: row.killed,
        act: row.act,
        value,
    };
    match tree.insert(id, body) {
        Ok(_) => Ok(()),
        Err(_) => Err(Memory),
    }
}

/// All rows in order, copied.
pub fn all_rows(alloc: Global, rows: &RowTree) -> Result<Rowlist, Memory>
    ensures { IfOk result (λ copies. copies ≡ rows_of rows.now.entries) }
{
    let mut copies = Rowlist::new(alloc);
    for (key, body) in rows.iter() {
        copies.push(body.row(alloc, key)?)?;
    }
    Ok(copies)
}

/// The first row not before the id.
pub fn first_row_from(alloc: Global, rows: &RowTree, id: &RowId) -> Result<Option<Row>, Memory>
    ensures { IfOk result (λ row. row ≡ first_from id.now (rows_of rows.now.entries)) }
{
    let mut from = rows.range(id..);
    match from.next() {
        Some((key, body)) => Ok(Some(body.row(alloc, key)?)),
        None => Ok(None),
    }
}

/// The last row before the id.
pub fn last_row_before(alloc: Global, rows: &RowTree, id: &RowId) -> Result<Option<Row>, Memory>
    ensures { IfOk result (λ row. row ≡ last_before id.now (rows_of rows.now.entries)) }
{
    let mut before = rows.range(..id);
    match before.next_back() {
        Some((key, body)) => Ok(Some(body.row(alloc, key)?)),
        None => Ok(None),
    }
}

/// The first `limit` rows not before the id.
pub fn some_rows_from(
    alloc: Global,
    rows: &RowTree,
    id: &RowId,
    limit: usize,
) -> Result<Rowlist, Memory>
    ensures { IfOk result (λ copies. copies ≡ take limit (rows_from id.now (rows_of rows.now.entries))) }
{
    let mut copies = Rowlist::new(alloc);
    for (key, body) in rows.range(id..) {
        if copies.len() >= limit {
            return Ok(copies);
        }
        copies.push(body.row(alloc, key)?)?;
    }
    Ok(copies)
}
