//! Stores begin to be watched, and end to be.
ghost use Rattle.std.specs.Prelude.{◌≡◌, ◌≤◌, ◌<◌, ◌+◌, ◌∷◌, ◌++◌, [], length, vec_capacity, IfOk, OnErr, OnOk};
ghost use Rattle.service_watch.specs.Gone.{HaveGone};
ghost use Rattle.service_watch.specs.Watching.{stores_in};

use crate::watched::{Origin, Watched};
use base_types::NoMemory;
use std::alloc::Global;
use std::marker::PhantomData;
use store_memory::Store;

// Puts a value before others, where there is room for it.
fn put_first<T: Drop>(items: &mut Vec<T>, item: T)
    requires { length items.old.items < vec_capacity items.old }
    ensures items { items.new.items ≡ item ∷ items.old.items }
    ensures room { vec_capacity items.old ≤ vec_capacity items.new }
{
    let _room = items.insert(0, item);
}

/// Watches stores, which leave their list, in their order. Where memory runs out, the only error, they are in it still.
pub fn watch<S: Store + Drop, O: Origin>(
    alloc: Global,
    stores: &mut Vec<S>,
) -> Result<Vec<Watched<S, O>>, NoMemory>
    requires gone { S.tells → HaveGone O.from S.view stores.old.items }
    ensures watched { IfOk result (λ watched. stores_in watched.items ≡ stores.old.items) }
    ensures taken { OnOk result (stores.new.items ≡ []) }
    ensures back { OnErr result (stores.new.items ≡ stores.old.items) }
    ensures room { vec_capacity stores.old ≤ vec_capacity stores.new }
{
    let mut watched = Vec::with_capacity(alloc, stores.len())?;
    while let Some(store) = stores.pop() {
        let origin = PhantomData;
        put_first(&mut watched, Watched { store, origin });
    }
    Ok(watched)
}

/// Puts stores that were watched into a list that has room for them, in front of those that are there.
pub fn unwatch<S: Store + Drop, O: Origin>(watched: Vec<Watched<S, O>>, stores: &mut Vec<S>)
    requires room { length watched.items + length stores.old.items ≤ vec_capacity stores.old }
    ensures stores { stores.new.items ≡ stores_in watched.items ++ stores.old.items }
    ensures gone { S.tells → HaveGone O.from S.view (stores_in watched.items) }
    ensures room { vec_capacity stores.old ≤ vec_capacity stores.new }
{
    let mut watched = watched;
    while let Some(last) = watched.pop() {
        put_first(stores, last.into_store());
    }
}
