use base_types::{Fid, Items, NoMemory, Plain};
use token_types::TokenId;

/// Tokens of one file that a server asks back.
pub struct Revoke {
    /// The file.
    pub fid: Fid,
    /// The serial stamp, counted per file and epoch.
    pub stamp: u64,
    /// The tokens.
    pub ids: Items<TokenId>,
}

impl Drop for Revoke {
    fn drop(self) {
        let Revoke {
            fid: _,
            stamp: _,
            ids: _,
        } = self;
    }
}

/// Tokens of one file, as a Returned or a Kept names them.
pub struct Named {
    /// The file.
    pub fid: Fid,
    /// The tokens.
    pub ids: Items<TokenId>,
}

impl Drop for Named {
    fn drop(self) {
        let Named { fid: _, ids: _ } = self;
    }
}

impl Plain for Revoke {
    fn copy(&self) -> Result<Revoke, NoMemory> {
        Ok(Revoke {
            fid: self.fid,
            stamp: self.stamp,
            ids: self.ids.to_items()?,
        })
    }
}

impl Plain for Named {
    fn copy(&self) -> Result<Named, NoMemory> {
        Ok(Named {
            fid: self.fid,
            ids: self.ids.to_items()?,
        })
    }
}
