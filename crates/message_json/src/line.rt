//! Lines of JSON, and what each thing adds to them.
ghost use Rattle.std.specs.Prelude.{◌≡◌, ◌++◌, ◌∷◌, [], encode_utf8, flat_map, string_bytes, IfOk, OnOk};
ghost use Rattle.json.specs.Json.{Json, object, no_members, member};
ghost use Rattle.json.specs.Print.{print};
ghost use Rattle.json.specs.Token.{begin_object, end_object, begin_array, end_array};
ghost use Rattle.json.specs.Token.{key, string, boolean, null};
ghost use Rattle.json.specs.Tree.{json_tokens};
ghost use Rattle.message_json.specs.Values.{whole, letters, list, maybe, tagged};

use base_types::{Items, NoMemory};
use json::Writer;
use std::alloc::Global;
use std::marker::Model;

/// A line of JSON that is being written. Contracts see it as its tokens.
#[derive(Drop)]
pub struct Line {
    writer: Writer,
    alloc: Global,
}

impl Model for Line {
    ghost use Rattle.std.specs.Prelude.{◌≡◌, [], List};
    ghost use Rattle.json.specs.Token.{Token, tokens_code};

    ghost Value = { List Token };

    ghost coded = { tokens_code };

    ghost view = { λ line. line.writer.tokens };

    ghost invariant = { λ line. line.writer.before ≡ [] };
}

/// What can be written as JSON.
pub trait ToJson {
    /// The JSON that it is.
    ghost json: { Self → Json };

    /// Adds it to a line.
    fn put(&self, line: &mut Line) -> Result<(), NoMemory>
        ensures { OnOk result (line.new ≡ line.old ++ json_tokens (json self.now)) };
}

impl Line {
    /// A line without anything.
    pub fn new(alloc: Global) -> Line
        ensures { result ≡ [] }
    {
        Line {
            writer: Writer::new(Vec::new(alloc)),
            alloc,
        }
    }

    /// The text of the line, without an end.
    pub fn into_text(self) -> Items<u8>
        ensures { result ≡ print self }
    {
        let Line { writer, alloc: _ } = self;
        Items::from_vec(writer.into_inner())
    }

    /// Opens an object.
    pub fn open(&mut self) -> Result<(), NoMemory>
        ensures { OnOk result (self.new ≡ self.old ++ begin_object ∷ []) }
    {
        self.writer.begin_object()?;
        Ok(())
    }

    /// Closes an object.
    pub fn close(&mut self) -> Result<(), NoMemory>
        ensures { OnOk result (self.new ≡ self.old ++ end_object ∷ []) }
    {
        self.writer.end_object()?;
        Ok(())
    }

    /// Adds the name of a member.
    pub fn name(&mut self, name: &str) -> Result<(), NoMemory>
        ensures { OnOk result (self.new ≡ self.old ++ key name.now ∷ []) }
    {
        self.writer.key(name)?;
        Ok(())
    }

    /// Adds a text.
    pub fn word(&mut self, word: &str) -> Result<(), NoMemory>
        ensures { OnOk result (self.new ≡ self.old ++ string word.now ∷ []) }
    {
        self.writer.string(word)?;
        Ok(())
    }

    /// Adds a number.
    #[tactic(auto, unfolding(crate::specs::Values::whole))]
    pub fn number(&mut self, number: u64) -> Result<(), NoMemory>
        ensures { OnOk result (self.new ≡ self.old ++ json_tokens (whole number)) }
    {
        self.writer.u64(number)?;
        Ok(())
    }

    /// Adds `true` or `false`.
    pub fn flag(&mut self, flag: bool) -> Result<(), NoMemory>
        ensures { OnOk result (self.new ≡ self.old ++ boolean flag ∷ []) }
    {
        self.writer.boolean(flag)?;
        Ok(())
    }

    /// Adds `null`.
    pub fn null(&mut self) -> Result<(), NoMemory>
        ensures { OnOk result (self.new ≡ self.old ++ null ∷ []) }
    {
        self.writer.null()?;
        Ok(())
    }

    /// Opens a list.
    pub fn begin_list(&mut self) -> Result<(), NoMemory>
        ensures { OnOk result (self.new ≡ self.old ++ begin_array ∷ []) }
    {
        self.writer.begin_array()?;
        Ok(())
    }

    /// Closes a list.
    pub fn end_list(&mut self) -> Result<(), NoMemory>
        ensures { OnOk result (self.new ≡ self.old ++ end_array ∷ []) }
    {
        self.writer.end_array()?;
        Ok(())
    }

    /// Adds bytes.
    #[tactic(auto, unfolding(crate::specs::Values::letters))]
    pub fn bytes(&mut self, bytes: &[u8]) -> Result<(), NoMemory>
        ensures { OnOk result (self.new ≡ self.old ++ json_tokens (letters bytes.now)) }
    {
        let text = letters(self.alloc, bytes)?;
        self.writer.string(text.as_str())?;
        Ok(())
    }

    /// Adds a member.
    pub fn field<T: ToJson>(&mut self, name: &str, value: &T) -> Result<(), NoMemory>
        ensures { OnOk result (self.new ≡ self.old ++ key name.now ∷ json_tokens (T.json value.now)) }
    {
        self.name(name)?;
        value.put(self)
    }

    /// Adds a member that is bytes.
    pub fn field_bytes(&mut self, name: &str, bytes: &[u8]) -> Result<(), NoMemory>
        ensures { OnOk result (self.new ≡ self.old ++ key name.now ∷ json_tokens (letters bytes.now)) }
    {
        self.name(name)?;
        self.bytes(bytes)
    }

    /// Adds a list.
    pub fn list<T: ToJson>(&mut self, values: &[T]) -> Result<(), NoMemory>
        ensures { OnOk result (self.new ≡ self.old ++ json_tokens (list T.json values.now)) }
    {
        self.begin_list()?;
        put_all(values, self)?;
        self.end_list()
    }

    /// Adds a case that holds something.
    #[tactic(auto, unfolding(crate::specs::Values::tagged))]
    pub fn tagged<T: ToJson>(&mut self, name: &str, value: &T) -> Result<(), NoMemory>
        ensures { OnOk result (self.new ≡ self.old ++ json_tokens (tagged name.now (T.json value.now))) }
    {
        self.open()?;
        self.field(name, value)?;
        self.close()
    }

    /// Adds a case that holds bytes.
    #[tactic(auto, unfolding(crate::specs::Values::tagged))]
    pub fn tagged_bytes(&mut self, name: &str, bytes: &[u8]) -> Result<(), NoMemory>
        ensures { OnOk result (self.new ≡ self.old ++ json_tokens (tagged name.now (letters bytes.now))) }
    {
        self.open()?;
        self.field_bytes(name, bytes)?;
        self.close()
    }

    /// Adds a case with one member.
    #[tactic(auto, unfolding(crate::specs::Values::tagged))]
    pub fn one<A: ToJson>(&mut self, case: &str, a: (&str, &A)) -> Result<(), NoMemory>
        ensures { OnOk result (self.new ≡ self.old ++ json_tokens (tagged case.now (object
            (member a.entry.0.now (A.json a.entry.1.now) no_members)))) }
    {
        self.begin(case)?;
        self.field(a.0, a.1)?;
        self.end()
    }

    /// Adds a case with two members.
    #[tactic(auto, unfolding(crate::specs::Values::tagged))]
    pub fn two<A: ToJson, B: ToJson>(
        &mut self,
        case: &str,
        a: (&str, &A),
        b: (&str, &B),
    ) -> Result<(), NoMemory>
        ensures { OnOk result (self.new ≡ self.old ++ json_tokens (tagged case.now (object
            (member a.entry.0.now (A.json a.entry.1.now) (member b.entry.0.now (B.json b.entry.1.now) no_members))))) }
    {
        self.begin(case)?;
        self.field(a.0, a.1)?;
        self.field(b.0, b.1)?;
        self.end()
    }

    /// Adds a case with three members.
    #[tactic(auto, unfolding(crate::specs::Values::tagged))]
    pub fn three<A: ToJson, B: ToJson, C: ToJson>(
        &mut self,
        case: &str,
        a: (&str, &A),
        b: (&str, &B),
        c: (&str, &C),
    ) -> Result<(), NoMemory>
        ensures { OnOk result (self.new ≡ self.old ++ json_tokens (tagged case.now (object
            (member a.entry.0.now (A.json a.entry.1.now)
            (member b.entry.0.now (B.json b.entry.1.now)
            (member c.entry.0.now (C.json c.entry.1.now) no_members)))))) }
    {
        self.begin(case)?;
        self.field(a.0, a.1)?;
        self.field(b.0, b.1)?;
        self.field(c.0, c.1)?;
        self.end()
    }

    /// Opens a case, and what it holds.
    pub fn begin(&mut self, case: &str) -> Result<(), NoMemory>
        ensures { OnOk result (self.new ≡ self.old ++ begin_object ∷ key case.now ∷ begin_object ∷ []) }
    {
        self.open()?;
        self.name(case)?;
        self.open()
    }

    /// Closes a case, and what it holds.
    pub fn end(&mut self) -> Result<(), NoMemory>
        ensures { OnOk result (self.new ≡ self.old ++ end_object ∷ end_object ∷ []) }
    {
        self.close()?;
        self.close()
    }
}

// The text of bytes, with one letter for each.
fn letters(alloc: Global, bytes: &[u8]) -> Result<String, NoMemory>
    ensures { IfOk result (λ text. string_bytes text ≡ flat_map encode_utf8 bytes.now) }
{
    let mut text = String::with_capacity(alloc, bytes.len())?;
    for byte in bytes {
        text.push(char::from(*byte))?;
    }
    Ok(text)
}

impl ToJson for u32 {
    ghost json = { whole };

    fn put(&self, line: &mut Line) -> Result<(), NoMemory> {
        line.number(*self as u64)
    }
}

impl ToJson for u64 {
    ghost json = { whole };

    fn put(&self, line: &mut Line) -> Result<(), NoMemory> {
        line.number(*self)
    }
}

impl ToJson for bool {
    ghost use Rattle.json.specs.Json.{boolean};

    ghost json = { boolean };

    fn put(&self, line: &mut Line) -> Result<(), NoMemory> {
        line.flag(*self)
    }
}

impl<T: ToJson> ToJson for Option<T> {
    ghost json = { maybe T.json };

    #[tactic(auto, unfolding(crate::specs::Values::maybe))]
    fn put(&self, line: &mut Line) -> Result<(), NoMemory> {
        match self {
            Some(value) => value.put(line),
            None => line.null(),
        }
    }
}

impl<T: ToJson> ToJson for Items<T> {
    ghost json = { list T.json };

    fn put(&self, line: &mut Line) -> Result<(), NoMemory> {
        line.list(self.as_slice())
    }
}

// Adds values, one behind another.
fn put_all<T: ToJson>(values: &[T], line: &mut Line) -> Result<(), NoMemory>
    ensures { OnOk result (line.new ≡ line.old ++ flat_map (λ value. json_tokens (T.json value)) values.now) }
{
    for value in values {
        value.put(line)?;
    }
    Ok(())
}
