ghost use Rattle.std.specs.Prelude.{◌≡◌, ◌<◌, ◌∷◌, ◌++◌, []};
ghost use Rattle.std.specs.Vec.{vec_len, vec_capacity};
ghost use Rattle.disk_log.specs.Puts.{without, without_page};

use disk_layout::PAGE;

// A page that an open transaction put, with its value before the transaction and now. A page is put once at most.
#[derive(Clone, Copy)]
pub struct Put {
    pub slot: usize,
    pub page: u32,
    pub old: [u8; PAGE],
    pub new: [u8; PAGE],
}

// Sets the put of a page, for which there is room.
pub fn set_put(puts: &mut Vec<Put>, put: Put)
    requires { vec_len puts.old < vec_capacity puts.old }
    ensures { puts.new.items ≡ without_page put.page puts.old.items ++ put ∷ [] }
{
    let page = put.page;
    puts.retain(|other| other.page != page);
    puts.push_reserved(put);
}

// Drops the puts of a transaction.
pub fn drop_puts(puts: &mut Vec<Put>, slot: usize)
    ensures { puts.new.items ≡ without slot puts.old.items }
{
    puts.retain(|put| put.slot != slot);
}
