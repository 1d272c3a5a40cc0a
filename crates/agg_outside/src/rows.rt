ghost use Rattle.std.specs.Prelude.{◌≡◌, IfOk};

use crate::bytes::Bytes;
use crate::errors::Memory;
use crate::list::ListOf;
use std::alloc::Global;
use std::cmp::Ordering;

/// The name of a row: rows are ordered by these fields in this order.
#[derive(Debug, Drop)]
pub struct RowId {
    /// The entity's number.
    pub entity: u8,
    pub key: Bytes,
    /// The transaction number of the change that the row holds.
    pub tx: u64,
    /// The epoch at which the row was written.
    pub born: u64,
}

/// One change of one key, as a keeper holds it.
#[derive(Debug, Drop)]
pub struct Row {
    pub id: RowId,
    /// The epoch at which the row was killed; 0 while it is alive.
    pub killed: u64,
    /// 0 is a put, 1 a deletion, 2 a mark.
    pub act: u8,
    /// The value of a put; empty for other acts.
    pub value: Bytes,
}

/// One write of `Keeper::apply`.
#[derive(Debug, Drop)]
pub enum RowWrite {
    /// A row whose id is new.
    Insert(Row),
    /// Sets `killed` of the row with this id.
    Kill(RowId, u64),
    /// Takes the row with this id away.
    Remove(RowId),
    /// Sets the floor, a step number.
    Floor(u64),
}

impl RowId {
    pub fn copy(&self, alloc: Global) -> Result<RowId, Memory>
        ensures { IfOk result (λ id. id ≡ self.now) }
    {
        let key = self.key.copy(alloc)?;
        Ok(RowId {
            entity: self.entity,
            key,
            tx: self.tx,
            born: self.born,
        })
    }
}

impl Row {
    pub fn copy(&self, alloc: Global) -> Result<Row, Memory>
        ensures { IfOk result (λ row. row ≡ self.now) }
    {
        let id = self.id.copy(alloc)?;
        let value = self.value.copy(alloc)?;
        Ok(Row {
            id,
            killed: self.killed,
            act: self.act,
            value,
        })
    }
}

impl RowWrite {
    pub fn copy(&self, alloc: Global) -> Result<RowWrite, Memory>
        ensures { IfOk result (λ write. write ≡ self.now) }
    {
        Ok(match self {
            RowWrite::Insert(row) => RowWrite::Insert(row.copy(alloc)?),
            RowWrite::Kill(id, epoch) => RowWrite::Kill(id.copy(alloc)?, *epoch),
            RowWrite::Remove(id) => RowWrite::Remove(id.copy(alloc)?),
            RowWrite::Floor(step) => RowWrite::Floor(*step),
        })
    }
}

impl PartialEq for RowId {
    ghost use Rattle.std.specs.Ordering.{eq_by_cmp};
    ghost use Rattle.std.specs.Cmp.{partial_equiv_from_equiv};
    ghost use Rattle.agg_outside.specs.Rows.{id_cmp};
    ghost use Rattle.agg_outside.specs.RowOrder.{id_eq_equiv};

    ghost eq = { eq_by_cmp id_cmp };

    ghost laws = { partial_equiv_from_equiv id_eq_equiv };

    fn eq(&self, other: &RowId) -> bool {
        self.cmp(other).is_eq()
    }
}

impl Eq for RowId {
    ghost use Rattle.agg_outside.specs.RowOrder.{id_eq_equiv};

    ghost laws = { id_eq_equiv };
}

impl PartialOrd for RowId {
    ghost use Rattle.std.specs.Prelude.{Some};
    ghost use Rattle.agg_outside.specs.Rows.{id_cmp};
    ghost use Rattle.agg_outside.specs.RowOrder.{id_partial_order};

    ghost partial_cmp = { λ a b. Some (id_cmp a b) };

    ghost laws = { id_partial_order };

    fn partial_cmp(&self, other: &RowId) -> Option<Ordering> {
        Some(self.cmp(other))
    }
}

// By the fields in order; a later one is read only where those before it tie.
impl Ord for RowId {
    ghost use Rattle.std.specs.Prelude.{refl};
    ghost use Rattle.agg_outside.specs.Rows.{id_cmp};
    ghost use Rattle.agg_outside.specs.RowOrder.{id_cmp_total};

    ghost cmp = { id_cmp };

    ghost total = { id_cmp_total };

    ghost matches_partial_cmp = { λ a b. refl };

    ghost matches_eq = { λ a b. refl };

    #[tactic(auto, unfolding(crate::specs::Rows::id_cmp))]
    fn cmp(&self, other: &RowId) -> Ordering {
        match self.entity.cmp(&other.entity) {
            Ordering::Equal => {}
            order => return order,
        }
        match self.key.cmp(&other.key) {
            Ordering::Equal => {}
            order => return order,
        }
        self.tx.cmp(&other.tx).then(self.born.cmp(&other.born))
    }
}

/// What a keeper in memory begins with; the ids of its rows ascend strictly.
#[derive(Debug, Drop)]
pub struct KeeperStart {
    pub rows: Rowlist,
    /// A step number.
    pub floor: u64,
}

/// Rows in order.
pub type Rowlist = ListOf<Row>;
