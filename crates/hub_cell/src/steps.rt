//! What each step of a turn tells, and how views are cut and joined. These types are for the proofs alone.
ghost use Rattle.hub_cell.specs.Lock.{drawn, looked, counted, ended_turn, told, kept_seats, new_seat, joined_views};
ghost use Rattle.hub_cell.specs.Lock.{spent};

use crate::counted::Counted;
use crate::rule::View;
use atomic_table::{Join, Play, Split};
use std::marker::{Brand, PhantomData};

/// Draws a ticket.
pub struct Draw;

impl<T: Counted> Play<T, View<T::Entry>> for Draw {
    ghost then = { drawn };
}

/// What a look may tell of the value. Each call picks it.
pub trait Fit<T> {
    ghost fit: { T → Type 0 };
}

impl<T> Fit<T> for Brand {
    ghost fit = { λ _. Unit {0} };
}

/// Looks whether it is the ticket's turn, and then takes the value.
pub struct Look<B> {
    fit: PhantomData<B>,
}

impl<T: Counted, B: Fit<T>> Play<T, View<T::Entry>> for Look<B> {
    ghost then = { looked T.list B.fit };
}

/// Counts what the turn added to the list.
pub struct Count;

impl<T: Counted> Play<T, View<T::Entry>> for Count {
    ghost then = { counted T.list };
}

/// Ends the turn, and gives the value back.
pub struct End;

impl<T: Counted> Play<T, View<T::Entry>> for End {
    ghost then = { ended_turn };
}

/// Tells what was heard in a join.
pub struct Tell;

impl<T: Counted> Play<T, View<T::Entry>> for Tell {
    ghost then = { told };
}

/// Cuts a spare seat off, or joins two seats.
pub struct Seats;

impl<E> Split<View<E>> for Seats {
    ghost left = { kept_seats };

    ghost right = { new_seat };
}

impl<E> Join<View<E>> for Seats {
    ghost both = { joined_views };

    ghost spent = { spent };
}
