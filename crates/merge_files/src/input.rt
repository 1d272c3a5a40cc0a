//! The files of groups as the inputs of a walk.
ghost use Rattle.std.specs.Prelude.{◌≡◌, map, All, IsTrue};
ghost use Rattle.std.specs.Arc.{arc_value};
ghost use Rattle.agg_model.specs.declared.entity.FileKind.{FileKind};
ghost use Rattle.agg_model.specs.declared.entity.FileKind.TheVariants.{Kv, V, Ef};
ghost use Rattle.merge_files.specs.Walks.{IsWalked, HasFile, IsInput, before_pair, times_pair, file_pairs};

use crate::cursor::Cursor;
use agg_model::FileKind;
use collate_step::EntityFiles;
use domain_core::KvFile;
use history_core::VFile;
use inverted_index::EfFile;
use std::sync::Arc;

fn kv_input(kv: &KvFile) -> Cursor<'_>
    ensures pairs { result ≡ kv.now.pairs }
    ensures input { IsInput Kv result }
{
    // That the keys ascend comes with their number.
    let _count = kv.len();
    Cursor::of(kv.words())
}

fn v_input(v: &VFile) -> Cursor<'_>
    ensures pairs { result ≡ map before_pair v.now.befores }
    ensures input { IsInput V result }
{
    // That the rows ascend comes with their number.
    let _count = v.len();
    Cursor::of(v.words())
}

fn ef_input(ef: &EfFile) -> Cursor<'_>
    ensures pairs { result ≡ map times_pair ef.now.lists }
    ensures input { IsInput Ef result }
{
    Cursor::of(ef.words())
}

/// The pairs of words of the group's file of this kind.
pub(crate) fn input_of(group: &EntityFiles, kind: FileKind) -> Cursor<'_>
    requires walked { IsWalked kind }
    requires there { HasFile kind group.now }
    ensures pairs { result ≡ file_pairs kind group.now }
    ensures input { IsInput kind result }
{
    match kind {
        FileKind::Kv => {
            let Some(kv) = group.kv() else { unreachable!() };
            kv_input(kv)
        }
        FileKind::V => {
            let Some(v) = group.v() else { unreachable!() };
            v_input(v)
        }
        FileKind::Ef => ef_input(group.ef()),
        _ => unreachable!(),
    }
}

/// Whether each of the groups has the file of this kind.
pub(crate) fn have_file(groups: &[Arc<EntityFiles>], kind: FileKind) -> bool
    ensures { IsTrue result → All (HasFile kind) (map (λ g. arc_value g) groups.now) }
{
    for i in 0..groups.len() {
        if groups[i].bytes_of(kind).is_none() {
            return false;
        }
    }
    true
}
