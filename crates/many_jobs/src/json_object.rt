//! An object of JSON, member by member.
ghost use Rattle.std.specs.Prelude.{◌≡◌, IfOk, IsFalse, OnOk, string_bytes};
ghost use Rattle.serde_json.specs.Data.{no_members, object, put};
ghost use Rattle.serde_json.specs.View.{members_view, view};
ghost use Rattle.serde_json.specs.Written.{compact_text, has_float, members_have_float};
ghost use Rattle.many_jobs.specs.JsonTexts.{name_text, words_text};

use crate::json_texts::{name_text, words_text};
use serde_json::{Map, Value};
use std::alloc::{AllocError, Global};

/// An object of JSON that is put together.
#[derive(Drop)]
pub struct Object {
    memory: Global,
    members: Map<String, Value>,
    // What is written for a float no definition says.
    ghost no_float: { IsFalse (members_have_float (members_view members.entries)) },
}

impl Object {
    ghost use Rattle.many_jobs.specs.JsonObject.{members_of, with_number, with_text};

    /// An object without members.
    pub fn new(memory: Global) -> Object
        ensures { members_of result ≡ no_members }
    {
        Object {
            memory,
            members: Map::new(memory),
        }
    }

    /// Puts a member, in place of one of the same name.
    fn put(&mut self, key: &str, value: Value) -> Result<(), AllocError>
        requires { IsFalse (has_float (view value)) }
        ensures { OnOk result (members_of self.new
            ≡ put key.now (view value) (members_of self.old)) }
    {
        serde_json::put(&mut self.members, self.memory, key, value)
    }

    /// Puts a text.
    pub fn put_text(&mut self, key: &str, text: &str) -> Result<(), AllocError>
        ensures { OnOk result (members_of self.new
            ≡ with_text key.now text.now (members_of self.old)) }
    {
        let value = Value::try_from_str(self.memory, text)?;
        self.put(key, value)
    }

    /// Puts a name of any bytes.
    pub fn put_name(&mut self, key: &str, name: &[u8]) -> Result<(), AllocError>
        ensures { OnOk result (members_of self.new
            ≡ with_text key.now (name_text name.now) (members_of self.old)) }
    {
        let text = name_text(self.memory, name)?;
        self.put(key, Value::from(text))
    }

    /// Puts words of the program.
    pub fn put_words(&mut self, key: &str, words: &[u8]) -> Result<(), AllocError>
        ensures { OnOk result (members_of self.new
            ≡ with_text key.now (words_text words.now) (members_of self.old)) }
    {
        let text = words_text(self.memory, words)?;
        self.put(key, Value::from(text))
    }

    /// Puts a number.
    pub fn put_number(&mut self, key: &str, n: u64) -> Result<(), AllocError>
        ensures { OnOk result (members_of self.new ≡ with_number key.now n (members_of self.old)) }
    {
        self.put(key, Value::from(n))
    }

    /// The object on one line.
    pub fn into_text(self) -> Result<String, AllocError>
        ensures { IfOk result (λ text. string_bytes text
            ≡ compact_text (object (members_of self))) }
    {
        let memory = self.memory;
        Value::from(self.members).to_string(memory)
    }
}
