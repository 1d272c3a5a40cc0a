ghost use Rattle.std.specs.Prelude.{◌≡◌, ◌+◌, ◌≤◌, ◌<◌, nat_lt, true, false, not, ◌||◌, ◌&&◌, find, length, slice_index_or, vec_len, vec_capacity};
ghost use Rattle.agg_model.specs.declared.entity.FileKind.{FileKind};
ghost use Rattle.merge_ranges.specs.Kind.{kind_number};
ghost use Rattle.merge_ranges.specs.declared.name.DiskName.{DiskName};
ghost use Rattle.visible_files.specs.Ids.{Ascends, IsLowerBound};
ghost use Rattle.visible_files.specs.Held.{id_of_name, held_places};
ghost use Rattle.visible_files.specs.Strays.{bit, disk_place, disk_places, same_disk_name, is_stray, is_loose_among};

use crate::held::{HeldGroup, is_name_seen};
use crate::ids::{GroupId, is_before, is_same};
use agg_model::FileKind;
use merge_ranges::{DiskName, FileName};

#[tactic(auto, unfolding(merge_ranges::specs::Kind::kind_number))]
fn kind_index(kind: FileKind) -> u8
    ensures value { result ≡ kind_number kind }
    ensures small { result < 7 }
{
    match kind {
        FileKind::Kv => 0,
        FileKind::Bt => 1,
        FileKind::Kvi => 2,
        FileKind::V => 3,
        FileKind::Vi => 4,
        FileKind::Ef => 5,
        FileKind::Efi => 6,
    }
}

fn temp_index(temp: bool) -> u8
    ensures value { result ≡ bit temp }
    ensures small { result < 2 }
{
    if temp { 1 } else { 0 }
}

/// The group that a file is of.
pub(crate) fn group_of(name: FileName) -> GroupId
    ensures { result ≡ id_of_name name }
{
    GroupId {
        entity: name.entity,
        range: name.range,
    }
}

#[tactic(auto, unfolding(crate::specs::Strays::disk_place))]
fn is_name_before(a: DiskName, b: DiskName) -> bool
    ensures { result ≡ nat_lt (disk_place a) (disk_place b) }
{
    let (first, second) = (kind_index(a.name.kind), kind_index(b.name.kind));
    let (one, other) = (temp_index(a.temp), temp_index(b.temp));
    if is_before(group_of(a.name), group_of(b.name)) {
        return true;
    }
    if is_before(group_of(b.name), group_of(a.name)) {
        return false;
    }
    if first != second {
        return first < second;
    }
    one < other
}

#[tactic(auto, unfolding(crate::specs::Strays::disk_place, crate::specs::Strays::same_disk_name, crate::specs::Held::same_file))]
fn is_same_name(a: DiskName, b: DiskName) -> bool
    ensures same { result ≡ same_disk_name a b }
    ensures apart { result ≡ false → disk_place a ≡ disk_place b → ⊥ }
{
    let (first, second) = (kind_index(a.name.kind), kind_index(b.name.kind));
    let (one, other) = (temp_index(a.temp), temp_index(b.temp));
    if !is_same(group_of(a.name), group_of(b.name)) {
        return false;
    }
    first == second && one == other
}

fn place_of_name(strays: &[DiskName], name: DiskName) -> usize
    requires { Ascends 0 (disk_places strays.now) }
    ensures { IsLowerBound disk_place strays.now (disk_place name) result }
{
    strays.partition_point(|other| is_name_before(*other, name))
}

// Whether the name is there, at the place where it would be.
fn is_at(strays: &[DiskName], at: usize, name: DiskName) -> bool
    requires order { Ascends 0 (disk_places strays.now) }
    requires bound { IsLowerBound disk_place strays.now (disk_place name) at }
    ensures there { result ≡ is_stray strays.now name }
    ensures here { result ≡ true → at < length strays.now }
    ensures same { (d : DiskName) → result ≡ true → same_disk_name (slice_index_or strays.now at d) name ≡ true }
    ensures apart { (d : DiskName) → result ≡ false → at < length strays.now →
        disk_place name < disk_place (slice_index_or strays.now at d) }
{
    if at >= strays.len() {
        return false;
    }
    is_same_name(strays[at], name)
}

/// Notes the name, unless it is noted.
pub(crate) fn note(strays: &mut Vec<DiskName>, name: DiskName)
    requires order { Ascends 0 (disk_places strays.old.items) }
    requires room { vec_len strays.old < vec_capacity strays.old }
    ensures order { Ascends 0 (disk_places strays.new.items) }
    ensures noted { (d : DiskName) → is_stray strays.new.items d
        ≡ (is_stray strays.old.items d || same_disk_name name d) }
    ensures len { vec_len strays.new ≤ vec_len strays.old + 1 }
    ensures capacity { vec_capacity strays.old ≤ vec_capacity strays.new }
{
    let at = place_of_name(strays.as_slice(), name);
    if is_at(strays.as_slice(), at, name) {
        return;
    }
    let _full = strays.insert(at, name);
}

/// Takes the name off, if it is noted.
pub(crate) fn forget(strays: &mut Vec<DiskName>, name: DiskName)
    requires { Ascends 0 (disk_places strays.old.items) }
    ensures order { Ascends 0 (disk_places strays.new.items) }
    ensures others { (d : DiskName) → is_stray strays.new.items d
        ≡ (is_stray strays.old.items d && not (same_disk_name name d)) }
    ensures len { vec_len strays.new ≤ vec_len strays.old }
    ensures capacity { vec_capacity strays.new ≡ vec_capacity strays.old }
{
    let at = place_of_name(strays.as_slice(), name);
    if !is_at(strays.as_slice(), at, name) {
        return;
    }
    let _name = strays.remove(at);
}

// Whether nobody sees the name; a temporary one is never seen.
fn is_name_loose(held: &[HeldGroup], name: DiskName) -> bool
    requires { Ascends 0 (held_places held.now) }
    ensures { result ≡ is_loose_among held.now name }
{
    name.temp || !is_name_seen(held, name.name)
}

/// The first of the names that nobody sees.
pub(crate) fn first_loose(strays: &[DiskName], held: &[HeldGroup]) -> Option<DiskName>
    requires { Ascends 0 (held_places held.now) }
    ensures { result ≡ find (λ d. is_loose_among held.now d) strays.now }
{
    for name in strays {
        if is_name_loose(held, *name) {
            return Some(*name);
        }
    }
    None
}
