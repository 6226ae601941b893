//! What a store in memory holds of one name.
ghost use Rattle.std.specs.Prelude.{◌≡◌, ◌<◌, ◌≤◌, List, [], ◌∷◌, ℕ, Option, Some, None, length, IfOk, OnOk, OnErr, MatchBool, MatchOption};
ghost use Rattle.std.specs.Option.{option_map};
ghost use Rattle.std.specs.Str.{bytes_eq};
ghost use Rattle.std.specs.String.{string_bytes};
ghost use Rattle.base_io.specs.Doubles.{Held, HasRoom, LacksRoom, room_with};

use crate::Memory;
use crate::calls::add_within;
use std::alloc::Global;
use std::marker::Model;

/// A name of a store in memory, with the file and the room that it may have.
#[derive(Drop)]
pub struct Entry {
    name: String,
    bytes: Vec<u8>,
    stands: bool,
    room: Option<usize>,
}

impl Model for Entry {
    ghost use Rattle.std.specs.Prelude.{◌≤◌, vec_len, vec_capacity, Some, None, if◌then◌else◌};
    ghost use Rattle.std.specs.String.{string_bytes};
    ghost use Rattle.base_io.specs.Doubles.{Held, HasRoom, room_within};

    ghost Value = { Held };

    ghost view = { λ e. record {
      name = string_bytes e.name;
      file = if e.stands then Some e.bytes.items else None;
      room = e.room;
    } };

    ghost invariant = { λ e. room_within e.room (vec_capacity e.bytes) };
}

impl Entry {
    /// A name with its file.
    pub fn file_of(name: String, bytes: Vec<u8>) -> Entry
        ensures { result ≡ record { name = string_bytes name; file = Some bytes.items; room = None } }
    {
        Entry {
            name,
            bytes,
            stands: true,
            room: None,
        }
    }

    /// A name with room for a file.
    pub fn room_of(alloc: Global, name: &str, room: usize) -> Result<Entry, Memory>
        ensures { IfOk result (λ e. e ≡ record { name = name.now; file = None; room = Some room }) }
    {
        let Ok(name) = String::from_str(alloc, name) else {
            return Err(Memory);
        };
        let Ok(bytes) = Vec::with_capacity(alloc, room) else {
            return Err(Memory);
        };
        Ok(Entry {
            name,
            bytes,
            stands: false,
            room: Some(room),
        })
    }

    /// The entry is that of the name.
    pub fn is_named(&self, name: &str) -> bool
        ensures { result ≡ bytes_eq self.now.name name.now }
    {
        self.name.as_str() == name
    }

    /// The bytes of its file, if it has one.
    pub fn file(&self) -> Option<&[u8]>
        ensures { option_map (λ bytes. bytes.now) result ≡ self.now.file }
    {
        if self.stands { Some(&self.bytes) } else { None }
    }

    /// Writes the file where there is room for it.
    pub fn write(&mut self, bytes: &[u8]) -> bool
        ensures { MatchBool result
            (HasRoom self.old.room (length bytes.now) × (self.new ≡ record self.old { file = Some bytes.now }))
            (LacksRoom self.old.room (length bytes.now) × (self.new ≡ self.old)) }
    {
        match self.room {
            Some(room) if bytes.len() <= room => {
                self.bytes.clear();
                add_within(&mut self.bytes, bytes);
                self.stands = true;
                true
            }
            _ => false,
        }
    }

    /// Keeps room for a file of so many bytes.
    pub fn reserve(&mut self, room: usize) -> Result<(), Memory>
        ensures ok { OnOk result (self.new ≡ record self.old { room = Some (room_with self.old.room room) }) }
        ensures err { OnErr result (self.new ≡ self.old) }
    {
        let more = room.saturating_sub(self.bytes.len());
        if self.bytes.reserve(more).is_err() {
            return Err(Memory);
        }
        let most = match self.room {
            Some(kept) => kept.max(room),
            None => room,
        };
        self.room = Some(most);
        Ok(())
    }
}
