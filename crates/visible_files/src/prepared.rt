use crate::set::FileSet;
use merge_ranges::Group;
use std::marker::Model;
use std::sync::Arc;

/// A set that is to follow the current one.
#[derive(Drop)]
pub struct Prepared<G: Group> {
    pub(crate) before: Arc<FileSet<G>>,
    pub(crate) set: Arc<FileSet<G>>,
}

impl<G: Group> Model for Prepared<G> {
    ghost use Rattle.std.specs.Arc.{arc_value};
    ghost use Rattle.visible_files.specs.Sets.{NextSet, AreNext};

    ghost Value = { NextSet G };

    ghost view = { λ p. record { before = (arc_value p.before).groups; set = arc_value p.set } };

    ghost invariant = { λ p. AreNext G.entity_of G.range_of (arc_value p.before) (arc_value p.set) };
}
