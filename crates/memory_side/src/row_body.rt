ghost use Rattle.std.specs.Prelude.{◌≡◌, IfOk};

use agg_outside::{Bytes, Memory, Row, RowId};
use std::alloc::Global;

/// What a row has besides its id.
#[derive(Debug, Drop)]
pub struct RowBody {
    pub killed: u64,
    pub act: u8,
    pub value: Bytes,
}

impl RowBody {
    ghost use Rattle.memory_side.specs.RowTree.{row_with};

    /// A copy of the row with this id and body.
    pub fn row(&self, alloc: Global, id: &RowId) -> Result<Row, Memory>
        ensures { IfOk result (λ row. row ≡ row_with id.now self.now) }
    {
        let id = id.copy(alloc)?;
        let value = self.value.copy(alloc)?;
        Ok(Row {
            id,
            killed: self.killed,
            act: self.act,
            value,
        })
    }
}
