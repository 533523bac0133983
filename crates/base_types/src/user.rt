ghost use Rattle.std.specs.Prelude.{◌≡◌};
ghost use Rattle.base_types.specs.Users.{first_group};

use crate::errors::NoMemory;
use crate::items::Items;
use crate::name::Name;
use crate::plain::Plain;

/// A user by name, with 1 to 8 groups.
#[derive(Debug, PartialEq)]
pub struct User {
    pub name: Name,
    pub groups: Items<Name>,
}

impl Drop for User {
    fn drop(self) {
        let User { name: _, groups: _ } = self;
    }
}

impl User {
    /// The first group, which owns what the user makes. A user without groups owns it by name.
    pub fn first_group(&self) -> &Name
        ensures { result.now ≡ first_group self.now }
    {
        match self.groups.as_slice().first() {
            Some(group) => group,
            None => &self.name,
        }
    }
}

impl Plain for User {
    fn copy(&self) -> Result<User, NoMemory> {
        Ok(User {
            name: self.name.copy()?,
            groups: self.groups.copy()?,
        })
    }
}
