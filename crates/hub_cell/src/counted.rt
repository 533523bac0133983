//! What a cell asks of its value, and of the work that is done on it in a turn.
ghost use Rattle.std.specs.Prelude.{◌≡◌, List, length};
ghost use Rattle.hub_cell.specs.Lists.{GrowsByOne};

/// A value with a list that only grows.
pub trait Counted {
    /// An entry of the list.
    type Entry;

    /// The list.
    ghost list: { Self → List Self.Entry };

    /// What stays of the value in a cell, whatever is done with it: a fact on the value that the cell was made with and
    /// on the one that it has now. It is all that a thread knows of the value when its turn begins, beside its list.
    ghost stays: { Self → Self → Type 0 };

    /// How many entries the list has.
    fn count(&self) -> u64
        ensures { result ≡ length (list self.now) };
}

/// The work on the value of a cell in one turn.
pub trait Work<T: Counted> {
    /// Which values it may be given.
    ghost may: { Self → T → Type 0 };

    /// What a call promises, of the work and the value before it and after it.
    ghost does: { Self → T → Self → T → Type 0 };

    /// It adds one entry to the value's list, or leaves the list as it is.
    fn work(&mut self, value: &mut T)
        requires { may self.old value.old }
        ensures grows { GrowsByOne (T.list value.old) (T.list value.new) }
        ensures stays { (first : T) → T.stays first value.old → T.stays first value.new }
        ensures done { does self.old value.old self.new value.new };
}
