//! What stands in a journal and in no message, as JSON.
ghost use Rattle.std.specs.Prelude.{◌≡◌, ◌++◌, ◌∷◌, flat_map, OnOk};
ghost use Rattle.json.specs.Json.{Json};
ghost use Rattle.json.specs.Token.{key};
ghost use Rattle.json.specs.Tree.{json_tokens};
ghost use Rattle.message_json.specs.Values.{list, maybe, tagged};

use base_types::{Items, NoMemory};
use message_json::Line;

/// What can be written as JSON, of the types that stand in a journal and in no message.
pub trait ToLine {
    /// The JSON that it is.
    ghost json: { Self → Json };

    /// Adds it to a line.
    fn put(&self, line: &mut Line) -> Result<(), NoMemory>
        ensures { OnOk result (line.new ≡ line.old ++ json_tokens (json self.now)) };
}

/// Adds a member.
pub fn put_field<T: ToLine>(line: &mut Line, name: &str, value: &T) -> Result<(), NoMemory>
    ensures { OnOk result (line.new ≡ line.old ++ key name.now ∷ json_tokens (T.json value.now)) }
{
    line.name(name)?;
    value.put(line)
}

/// Adds a case that holds something.
#[tactic(auto, unfolding(message_json::specs::Values::tagged))]
pub fn put_tagged<T: ToLine>(line: &mut Line, name: &str, value: &T) -> Result<(), NoMemory>
    ensures { OnOk result (line.new ≡ line.old ++ json_tokens (tagged name.now (T.json value.now))) }
{
    line.open()?;
    put_field(line, name, value)?;
    line.close()
}

/// Adds a list.
pub fn put_list<T: ToLine>(line: &mut Line, values: &[T]) -> Result<(), NoMemory>
    ensures { OnOk result (line.new ≡ line.old ++ json_tokens (list T.json values.now)) }
{
    line.begin_list()?;
    put_all(line, values)?;
    line.end_list()
}

// Adds values, one behind another.
fn put_all<T: ToLine>(line: &mut Line, values: &[T]) -> Result<(), NoMemory>
    ensures { OnOk result (line.new ≡ line.old ++ flat_map (λ value. json_tokens (T.json value)) values.now) }
{
    for value in values {
        value.put(line)?;
    }
    Ok(())
}

impl<T: ToLine> ToLine for Option<T> {
    ghost json = { maybe T.json };

    #[tactic(auto, unfolding(message_json::specs::Values::maybe))]
    fn put(&self, line: &mut Line) -> Result<(), NoMemory> {
        match self {
            Some(value) => value.put(line),
            None => line.null(),
        }
    }
}

impl<T: ToLine> ToLine for Items<T> {
    ghost json = { list T.json };

    fn put(&self, line: &mut Line) -> Result<(), NoMemory> {
        put_list(line, self.as_slice())
    }
}
