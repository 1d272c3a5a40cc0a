//! One group: the files of an entity over a range of steps.
ghost use Rattle.std.specs.Prelude.{◌≡◌, Option};
ghost use Rattle.std.specs.Option.{option_copied};
ghost use Rattle.collate_step.specs.Groups.{GroupFiles, IsGroup, bytes_of};

use agg_model::{Entity, FileKind, Range};
use domain_core::KvFile;
use history_core::VFile;
use inverted_index::EfFile;
use merge_ranges::Group;
use std::marker::Model;

/// The files of an entity over a range of steps. A domain has values and the values before changes; each entity has
/// the numbers of its changes.
#[derive(Debug, Drop)]
pub struct EntityFiles {
    entity: Entity,
    range: Range,
    kv: Option<KvFile>,
    v: Option<VFile>,
    ef: EfFile,
}

impl Model for EntityFiles {
    ghost use Rattle.collate_step.specs.Groups.{GroupFiles, IsGroup};

    ghost Value = { GroupFiles };

    ghost view = { λ g. record { entity = g.entity; range = g.range; kv = g.kv; v = g.v; ef = g.ef } };

    ghost invariant = { λ g. IsGroup (record { entity = g.entity; range = g.range; kv = g.kv; v = g.v; ef = g.ef }) };
}

impl Group for EntityFiles {
    ghost entity_of = { λ g. g.entity };

    ghost range_of = { λ g. g.range };

    fn entity(&self) -> Entity {
        self.entity
    }

    fn range(&self) -> Range {
        self.range
    }
}

impl EntityFiles {
    ghost use Rattle.collate_step.specs.Groups.{IsGroup};

    /// The group of these files.
    pub fn of(
        entity: Entity,
        range: Range,
        kv: Option<KvFile>,
        v: Option<VFile>,
        ef: EfFile,
    ) -> EntityFiles
        requires { IsGroup (record { entity = entity; range = range; kv = kv; v = v; ef = ef }) }
        ensures { result ≡ record { entity = entity; range = range; kv = kv; v = v; ef = ef } }
    {
        EntityFiles {
            entity,
            range,
            kv,
            v,
            ef,
        }
    }

    pub fn entity(&self) -> Entity
        ensures { result ≡ self.now.entity }
    {
        self.entity
    }

    pub fn range(&self) -> Range
        ensures { result ≡ self.now.range }
    {
        self.range
    }

    /// The values at the end of the steps, where the entity is a domain.
    pub fn kv(&self) -> Option<&KvFile>
        ensures { option_copied result ≡ self.now.kv }
    {
        self.kv.as_ref()
    }

    /// The values before the changes, where the entity is a domain.
    pub fn v(&self) -> Option<&VFile>
        ensures { option_copied result ≡ self.now.v }
    {
        self.v.as_ref()
    }

    /// The numbers of the changes.
    pub fn ef(&self) -> &EfFile
        ensures { result.now ≡ self.now.ef }
    {
        &self.ef
    }

    /// The whole file of this kind, where the entity has one.
    pub fn bytes_of(&self, kind: FileKind) -> Option<&[u8]>
        ensures { option_copied result ≡ bytes_of self.now kind }
    {
        match kind {
            FileKind::Kv => Some(self.kv.as_ref()?.bytes()),
            FileKind::Bt => Some(self.kv.as_ref()?.bt_bytes()),
            FileKind::Kvi => Some(self.kv.as_ref()?.kvi_bytes()),
            FileKind::V => Some(self.v.as_ref()?.bytes()),
            FileKind::Vi => Some(self.v.as_ref()?.vi_bytes()),
            FileKind::Ef => Some(self.ef.bytes()),
            FileKind::Efi => Some(self.ef.efi_bytes()),
        }
    }
}
