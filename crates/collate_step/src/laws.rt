ghost use Rattle.std.specs.Prelude.{◌≡◌, Some};
ghost use Rattle.agg_model.specs.ChangeList.{ChangeList};
ghost use Rattle.agg_model.specs.declared.entity.Entity.{Entity};
ghost use Rattle.agg_model.specs.declared.entity.FileKind.TheVariants.{Kv, Bt, Kvi, V, Vi, Ef, Efi};
ghost use Rattle.agg_model.specs.declared.entity.Range.{Range};
ghost use Rattle.domain_core.specs.KvFile.{kv_file_bytes, bt_file_bytes, kvi_file_bytes};
ghost use Rattle.history_core.specs.VFile.{v_file_bytes, vi_file_bytes};
ghost use Rattle.inverted_index.specs.EfFile.{ef_file_bytes, efi_file_bytes};
ghost use Rattle.collate_step.specs.Groups.{IsDomain, group_of, bytes_of};

/// The bytes of a list's group, by kind.
pub fn group_laws()
    ensures kv { (list : ChangeList) (e : Entity) (r : Range) → IsDomain e →
        bytes_of (group_of list e r) Kv ≡ Some (kv_file_bytes list.size list.changes e r.from r.to) }
    ensures bt { (list : ChangeList) (e : Entity) (r : Range) → IsDomain e →
        bytes_of (group_of list e r) Bt ≡ Some (bt_file_bytes list.size list.changes e r.from r.to) }
    ensures kvi { (list : ChangeList) (e : Entity) (r : Range) → IsDomain e →
        bytes_of (group_of list e r) Kvi ≡ Some (kvi_file_bytes list.size list.changes e r.from r.to) }
    ensures v { (list : ChangeList) (e : Entity) (r : Range) → IsDomain e →
        bytes_of (group_of list e r) V ≡ Some (v_file_bytes list.size list.changes e r.from r.to) }
    ensures vi { (list : ChangeList) (e : Entity) (r : Range) → IsDomain e →
        bytes_of (group_of list e r) Vi ≡ Some (vi_file_bytes list.size list.changes e r.from r.to) }
    ensures ef { (list : ChangeList) (e : Entity) (r : Range) →
        bytes_of (group_of list e r) Ef ≡ Some (ef_file_bytes list.size list.changes e r.from r.to) }
    ensures efi { (list : ChangeList) (e : Entity) (r : Range) →
        bytes_of (group_of list e r) Efi ≡ Some (efi_file_bytes list.size list.changes e r.from r.to) }
{}
