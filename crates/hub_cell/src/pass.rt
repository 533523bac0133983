//! The right of one thread to take turns at a cell.
use crate::rule::View;
use atomic_table::Badge;
use std::marker::Model;

/// A pass to a cell. Contracts see which cell it is of, what it has seen, which is a beginning of the cell's list, what
/// was made through it, each entry with its place in the list, and how many seats it has to spare.
#[derive(Drop)]
pub struct Pass<E> {
    pub(crate) badge: Badge<View<E>>,
    pub(crate) spare: u32,
}

impl<E> Model for Pass<E> {
    ghost use Rattle.hub_cell.specs.Passes.{PassView, pass_view, IsResting};

    ghost Value = { PassView E };

    ghost view = { λ p. pass_view p.badge.table_id p.badge.views p.spare };

    ghost invariant = { λ p. IsResting p.badge.views p.spare };
}
