ghost use Rattle.std.specs.Prelude.{◌≡◌, IfOk, OnOk};
ghost use Rattle.service_plain.specs.Uses.{same_use, without, used_after, ending};
ghost use Rattle.service_plain.specs.declared.uses.Use.TheVariants.{Lock, Open};

use base_types::{Items, Name, NoMemory, Plain};
use tree_calls::Call;

/// What a host has in use, by its label.
#[derive(Drop)]
pub enum Use {
    /// A lock.
    Lock(Name),
    /// An open file.
    Open(Name),
}

impl Use {
    /// The call that ends it.
    pub(crate) fn ending(&self) -> Result<Call, NoMemory>
        ensures { IfOk result (λ call. call ≡ ending self.now) }
    {
        match self {
            Use::Lock(label) => {
                let label = label.copy()?;
                Ok(Call::Unlock { label })
            }
            Use::Open(label) => {
                let label = label.copy()?;
                Ok(Call::CloseFile { label })
            }
        }
    }

    fn is_lock(&self, label: &Name) -> bool
        ensures { result ≡ same_use self.now (Lock label.now) }
    {
        match self {
            Use::Lock(other) => *other == *label,
            Use::Open(_) => false,
        }
    }

    fn is_open(&self, label: &Name) -> bool
        ensures { result ≡ same_use self.now (Open label.now) }
    {
        match self {
            Use::Lock(_) => false,
            Use::Open(other) => *other == *label,
        }
    }
}

// Notes what a call that was done takes into use, or ends.
pub(crate) fn note(uses: &mut Items<Use>, call: &Call) -> Result<(), NoMemory>
    ensures { OnOk result (uses.new ≡ used_after uses.old call.now) }
{
    match call {
        Call::Lock { label, .. } => uses.push(Use::Lock(label.copy()?))?,
        Call::OpenFile { label, .. } => uses.push(Use::Open(label.copy()?))?,
        Call::Unlock { label } => drop_lock(uses, label),
        Call::CloseFile { label } => drop_open(uses, label),
        _ => (),
    }
    Ok(())
}

fn drop_lock(uses: &mut Items<Use>, label: &Name)
    ensures { uses.new ≡ without (Lock label.now) uses.old }
{
    uses.retain(|other| !other.is_lock(label));
}

fn drop_open(uses: &mut Items<Use>, label: &Name)
    ensures { uses.new ≡ without (Open label.now) uses.old }
{
    uses.retain(|other| !other.is_open(label));
}
