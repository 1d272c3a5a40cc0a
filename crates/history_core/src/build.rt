//! How a file is built of its befores.
ghost use Rattle.std.specs.Prelude.{◌≡◌, IfOk};
ghost use Rattle.history_core.specs.Befores.{AreBefores};
ghost use Rattle.history_core.specs.VFile.{tagged_befores, IsFileOf};

use crate::spell::words_for;
use crate::v_file::VFile;
use agg_model::Befores;
use agg_outside::Memory;
use std::alloc::Global;
use std::thread::Threads;
use word_file::{Tag, WordFile};

// The words of the file of these befores.
fn words_of(alloc: Global, tag: Tag, rows: &Befores) -> Result<WordFile, Memory>
    requires { AreBefores tag rows.now }
    ensures tag { IfOk result (λ words. words.tag ≡ tag) }
    ensures file { IfOk result (λ words. IsFileOf words rows.now) }
{
    words_for(alloc, tag, rows.as_slice())
}

/// The file of these befores.
pub fn build_v(alloc: Global, tag: Tag, rows: &Befores) -> Result<VFile, Memory>
    requires { AreBefores tag rows.now }
    ensures { IfOk result (λ file. file ≡ tagged_befores tag rows.now) }
{
    VFile::of(alloc, words_of(alloc, tag, rows)?)
}

/// The file of these befores, as `build_v` gives it; where there are many, its accessor is built side by side.
pub fn build_v_side_by_side<R: Threads + Sync>(
    rt: &R,
    alloc: Global,
    tag: Tag,
    rows: &Befores,
) -> Result<VFile, Memory>
    requires { AreBefores tag rows.now }
    ensures { IfOk result (λ file. file ≡ tagged_befores tag rows.now) }
{
    VFile::of_side_by_side(rt, alloc, words_of(alloc, tag, rows)?)
}
