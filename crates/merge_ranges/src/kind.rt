ghost use Rattle.std.specs.Prelude.{◌≡◌, ◌<◌, IfSome, Some};
ghost use Rattle.merge_ranges.specs.Kind.{kind_number, ending, is_index_kind};
ghost use Rattle.agg_model.specs.declared.entity.FileKind.{FileKind};

use agg_model::FileKind;

// How many kinds there are.
const COUNT: u8 = 7;

#[tactic(auto, unfolding(crate::specs::Kind::kind_number))]
fn numbered(n: u8) -> FileKind
    requires { n < 7 }
    ensures { kind_number result ≡ n }
{
    match n {
        0 => FileKind::Kv,
        1 => FileKind::Bt,
        2 => FileKind::Kvi,
        3 => FileKind::V,
        4 => FileKind::Vi,
        5 => FileKind::Ef,
        _ => FileKind::Efi,
    }
}

/// The last part of a name of this kind.
#[tactic(auto, unfolding(crate::specs::Kind::ending))]
pub fn ending_of(kind: FileKind) -> &'static str
    ensures { result.now ≡ ending kind }
{
    match kind {
        FileKind::Kv => "kv",
        FileKind::Bt => "bt",
        FileKind::Kvi => "kvi",
        FileKind::V => "v",
        FileKind::Vi => "vi",
        FileKind::Ef => "ef",
        FileKind::Efi => "efi",
    }
}

/// The kind that has this last part.
pub fn kind_of(text: &[u8]) -> Option<FileKind>
    ensures found { IfSome result (λ k. ending k ≡ text.now) }
    ensures only { (k : FileKind) → ending k ≡ text.now → result ≡ Some k }
{
    for number in 0..COUNT {
        let kind = numbered(number);
        if ending_of(kind).as_bytes() == text {
            return Some(kind);
        }
    }
    None
}

/// Whether indexes have files of this kind too.
#[tactic(auto, unfolding(crate::specs::Kind::is_index_kind))]
pub fn is_of_indexes(kind: FileKind) -> bool
    ensures { result ≡ is_index_kind kind }
{
    matches!(kind, FileKind::Ef | FileKind::Efi)
}
