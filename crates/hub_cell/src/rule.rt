// ! The rule of the ticket lock. The words are the tickets drawn and the turns ended, both modulo 2^64, and the length
// of
//! the list. The slot has the value.
use crate::counted::Counted;
use atomic_table::{Seat, Table, TableRule};
use std::alloc::Global;
use std::collections::LinkedList;
use std::snapshot::Snapshot;

/// How many tickets were drawn.
pub const DRAWN: usize = 0;

/// How many turns have ended, which is the ticket whose turn it is.
pub const ENDED: usize = 1;

/// How many entries the list has.
pub const COUNT: usize = 2;

/// Where a seat stands.
pub enum Stage {
    /// It has no ticket.
    Idle,
    /// It has this ticket.
    Waits(u64),
    /// It has this ticket, whose turn it is, and the value.
    Holds(u64),
}

/// What a seat knows. No value of it is made.
pub struct View<E> {
    /// A beginning of the list.
    pub seen: LinkedList<E>,
    /// The entries that were made through the seat, each with its place in the list.
    pub made: LinkedList<(u64, E)>,
    /// The seat itself and its spare ones. A seat that was joined to another has none.
    pub seats: u64,
    pub stage: Stage,
    /// Beginnings of the list that a join told of, until the next look.
    pub heard: LinkedList<LinkedList<E>>,
}

/// What a cell is made with: how many passes it can have, and its first value.
#[derive(Drop)]
pub struct Key<T> {
    pub seats: u32,
    pub first: Snapshot<T>,
}

/// The rule.
pub struct TicketLock;

impl<T: Counted> TableRule<T, View<T::Entry>, Key<T>> for TicketLock {
    ghost use Rattle.hub_cell.specs.Lock.{IsKept, first_view};

    ghost holds = { λ key. IsKept T.list (T.stays key.first.value) key.seats };

    ghost first = { λ key. first_view key.seats };
}

pub type Lock<T> = Table<T, View<<T as Counted>::Entry>, Key<T>, TicketLock, Global>;

pub type Place<T> = Seat<T, View<<T as Counted>::Entry>>;
