// The reservations of open transactions, by slot. One of 0 is free.
ghost use Rattle.std.specs.Prelude.{◌≡◌, ◌<◌, ◌≤◌, ◌-◌, length, sum, get_or, set};

use base_types::Items;

// The lowest free slot, where fewer entries are reserved than there are slots.
pub fn free_slot(reservations: &[usize]) -> usize
    requires { sum reservations.now < length reservations.now }
    ensures within { result < length reservations.now }
    ensures free { get_or reservations.now result 0 ≡ 0 }
{
    for (slot, reserved) in reservations.iter().enumerate() {
        if *reserved == 0 {
            return slot;
        }
    }
    unreachable!()
}

// Frees a slot, and the entries that it reserved.
pub fn release(reservations: &mut Items<usize>, reserved: &mut usize, slot: usize)
    requires slot { slot < length reservations.old }
    requires part { get_or reservations.old slot 0 ≤ reserved.old }
    ensures reservations { reservations.new ≡ set reservations.old slot 0 }
    ensures reserved { reserved.new ≡ reserved.old - get_or reservations.old slot 0 }
{
    *reserved -= *reservations.get(slot);
    reservations.set(slot, 0);
}
