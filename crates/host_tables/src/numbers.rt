ghost use Rattle.std.specs.Prelude.{◌≡◌, ◌+◌, IfOk, OnErr};
ghost use Rattle.std.specs.List.{position};
ghost use Rattle.host_tables.specs.Tables.{is_counter, last_change, last_fetch};
ghost use Rattle.host_tables.specs.Updates.{is_fetched, with_change, with_fetch};

use base_types::{FilesetId, Items, NoMemory, ServerId};

/// The last number of Fetches of a fileset.
#[derive(Clone, Copy)]
pub struct Fetched {
    pub fileset: FilesetId,
    pub number: u64,
}

/// The last number of Changes of a fileset, or under fileset 0 of a server.
#[derive(Clone, Copy)]
pub struct Changed {
    pub server: ServerId,
    pub fileset: FilesetId,
    pub number: u64,
}

/// The next number of a Fetch, which is then the last one. The only error is that memory ran out, or that there is no
/// further number; then nothing changes.
pub fn next_fetch(fetched: &mut Items<Fetched>, fileset: FilesetId) -> Result<u64, NoMemory>
    ensures number { IfOk result (λ number. number ≡ last_fetch fetched.old fileset + 1) }
    ensures after { IfOk result (λ number. fetched.new ≡ with_fetch fileset number fetched.old) }
    ensures err { OnErr result (fetched.new ≡ fetched.old) }
{
    let Some(place) = fetch_place(fetched.as_slice(), fileset) else {
        fetched.push(Fetched { fileset, number: 1 })?;
        return Ok(1);
    };
    let number = after(fetched.get(place).number)?;
    fetched.put(place, Fetched { fileset, number });
    Ok(number)
}

fn fetch_place(fetched: &[Fetched], fileset: FilesetId) -> Option<usize>
    ensures { result ≡ position (is_fetched fileset) fetched.now }
{
    fetched.iter().position(|last| last.fileset == fileset)
}

/// The next number of a Change, which is then the last one. The only error is that memory ran out, or that there is no
/// further number; then nothing changes.
pub fn next_change(
    changed: &mut Items<Changed>,
    server: ServerId,
    fileset: FilesetId,
) -> Result<u64, NoMemory>
    ensures number { IfOk result (λ number. number ≡ last_change changed.old server fileset + 1) }
    ensures after { IfOk result (λ number. changed.new ≡ with_change server fileset number changed.old) }
    ensures err { OnErr result (changed.new ≡ changed.old) }
{
    let Some(place) = change_place(changed.as_slice(), server, fileset) else {
        changed.push(first_change(server, fileset))?;
        return Ok(1);
    };
    let number = after(changed.get(place).number)?;
    let last = Changed {
        server,
        fileset,
        number,
    };
    changed.put(place, last);
    Ok(number)
}

fn first_change(server: ServerId, fileset: FilesetId) -> Changed
    ensures { result ≡ record { server = server; fileset = fileset; number = 1 } }
{
    Changed {
        server,
        fileset,
        number: 1,
    }
}

fn change_place(changed: &[Changed], server: ServerId, fileset: FilesetId) -> Option<usize>
    ensures { result ≡ position (is_counter server fileset) changed.now }
{
    changed
        .iter()
        .position(|last| is_counter(last, server, fileset))
}

fn is_counter(last: &Changed, server: ServerId, fileset: FilesetId) -> bool
    ensures { result ≡ is_counter server fileset last.now }
{
    last.fileset == fileset && (fileset.0 != 0 || last.server == server)
}

// The next number; memory counts as run out behind the last one.
fn after(number: u64) -> Result<u64, NoMemory>
    ensures { IfOk result (λ next. next ≡ number + 1) }
{
    match number.checked_add(1) {
        Some(next) => Ok(next),
        None => Err(NoMemory),
    }
}
