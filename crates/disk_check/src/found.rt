// What is found while slots and anodes are gone through.
use disk_image::{Fault, Link, Use};

// The faults so far, and those of reach, which are told behind them; where the entries of the slot at hand lead; all
// pointers; and by block whether an anode has it as its indirect block.
#[derive(Drop)]
pub struct Found {
    pub faults: Vec<Fault>,
    pub reach: Vec<Fault>,
    pub links: Vec<Link>,
    pub uses: Vec<Use>,
    pub mapped: Vec<bool>,
}
