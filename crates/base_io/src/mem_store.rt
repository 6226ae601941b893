//! A store in memory, for tests.
ghost use Rattle.std.specs.Prelude.{◌≡◌, ◌≢◌, ◌+◌, ◌<◌, ◌≤◌, ◌⊎◌, ◌++◌, ◌∷◌, [], ℕ, List, Option, Some, None, true, false, map, length, take, position, slice_set, slice_get, IfOk, IfSome, OnOk, OnErr, MatchBool, MatchOption, MatchResult};
ghost use Rattle.std.specs.Option.{option_map};
ghost use Rattle.std.specs.Str.{bytes_eq};
ghost use Rattle.std.specs.String.{string_bytes};
ghost use Rattle.base_io.specs.Counts.{CountsFaults, Rose, one_more};
ghost use Rattle.base_io.specs.Files.{Answers, IfSeen, MatchAnswer, MatchFailed, Writes};
ghost use Rattle.base_io.specs.Doubles.{fails_next, file_at, room_at, HasRoom, LacksRoom, given};
ghost use Rattle.base_io.specs.Changes.{WritesHeld, Reserves, NamesDiffer};

use crate::calls::{is_listed, one_more};
use crate::entry::Entry;
use crate::{GetFault, Memory, PutFault, Store};
use std::alloc::Global;
use std::marker::Model;

/// A store in memory that tells its files: a name has room for a file by `reserve` alone, and the gets and puts that
/// are listed fail.
#[derive(Drop)]
pub struct MemStore {
    alloc: Global,
    entries: Vec<Entry>,
    failing_gets: Vec<u64>,
    failing_puts: Vec<u64>,
    gets: u64,
    puts: u64,
    read_faults: u64,
    write_faults: u64,
    bad_name: String,
}

impl Model for MemStore {
    ghost use Rattle.std.specs.String.{string_bytes};
    ghost use Rattle.base_io.specs.Doubles.{StoreState};

    ghost Value = { StoreState };

    ghost view = { λ s. record {
      held = s.entries.items;
      failing_gets = s.failing_gets.items;
      failing_puts = s.failing_puts.items;
      gets = s.gets;
      puts = s.puts;
      read_faults = s.read_faults;
      write_faults = s.write_faults;
      bad_name = string_bytes s.bad_name;
    } };
}

// Where the name stands first.
fn position_of(entries: &[Entry], name: &str) -> Option<usize>
    ensures { result ≡ position (λ h. bytes_eq h.name name.now) entries.now }
{
    entries.iter().position(|entry| entry.is_named(name))
}

// Writes the file of the name where there is room for it.
fn write_file(entries: &mut [Entry], name: &str, bytes: &[u8]) -> bool
    ensures { MatchBool result (WritesHeld name.now bytes.now entries.old entries.new)
        (LacksRoom (room_at entries.old name.now) (length bytes.now) × (entries.new ≡ entries.old)) }
{
    match position_of(entries, name) {
        Some(at) => {
            let entry = &mut entries[at];
            entry.write(bytes)
        }
        None => false,
    }
}

// Keeps room for the file of the name.
fn reserve_room(
    alloc: Global,
    entries: &mut Vec<Entry>,
    name: &str,
    room: usize,
) -> Result<(), Memory>
    ensures ok { OnOk result (Reserves name.now room entries.old.items entries.new.items) }
    ensures err { OnErr result (entries.new.items ≡ entries.old.items) }
{
    match position_of(entries, name) {
        Some(at) => {
            let entry = &mut entries[at];
            entry.reserve(room)
        }
        None => {
            let entry = Entry::room_of(alloc, name, room)?;
            push_entry(entries, entry)
        }
    }
}

// Adds an entry behind the others.
fn push_entry(entries: &mut Vec<Entry>, entry: Entry) -> Result<(), Memory>
    ensures ok { OnOk result (entries.new.items ≡ entries.old.items ++ entry ∷ []) }
    ensures err { OnErr result (entries.new.items ≡ entries.old.items) }
{
    match entries.push(entry) {
        Ok(()) => Ok(()),
        Err(_) => Err(Memory),
    }
}

// The bytes of the name's file.
fn file_in<'a>(entries: &'a [Entry], name: &str) -> Option<&'a [u8]>
    ensures { option_map (λ bytes. bytes.now) result ≡ file_at entries.now name.now }
{
    match position_of(entries, name) {
        Some(at) => entries[at].file(),
        None => None,
    }
}

impl MemStore {
    /// A store of these files, names with their bytes; the names differ. The gets and puts of these numbers, each kind
    /// counted from 1, fail.
    pub fn new(
        alloc: Global,
        files: Vec<(String, Vec<u8>)>,
        gets: Vec<u64>,
        puts: Vec<u64>,
    ) -> Result<MemStore, Memory>
        requires { NamesDiffer (map (λ f. string_bytes f.0) files.items) }
        ensures { IfOk result (λ s. s ≡ record {
          held = map (λ f. given (string_bytes f.0) f.1.items) files.items;
          failing_gets = gets.items;
          failing_puts = puts.items;
          gets = 0;
          puts = 0;
          read_faults = 0;
          write_faults = 0;
          bad_name = [];
        }) }
    {
        let entries = entries_of(alloc, files)?;
        Ok(MemStore {
            alloc,
            entries,
            failing_gets: gets,
            failing_puts: puts,
            gets: 0,
            puts: 0,
            read_faults: 0,
            write_faults: 0,
            bad_name: String::new(alloc),
        })
    }

    /// Keeps room for so many bytes in the file of the name, which a put needs and doesn't use up. It changes no file,
    /// and the greatest room of a name stands.
    pub fn reserve(&mut self, name: &str, room: usize) -> Result<(), Memory>
        ensures ok { OnOk result (Reserves name.now room self.old.held self.new.held) }
        ensures rest { self.new ≡ record self.old { held = self.new.held } }
        ensures err { OnErr result (self.new ≡ self.old) }
    {
        reserve_room(self.alloc, &mut self.entries, name, room)
    }

    /// The bytes of a file, or none where there is no such file.
    pub fn file(&self, name: &str) -> Option<&[u8]>
        ensures { option_map (λ bytes. bytes.now) result ≡ file_at self.now.held name.now }
    {
        file_in(&self.entries, name)
    }

    // Counts a get that fails and keeps its name, or answers false where there is no memory for the name.
    fn count_failed_get(&mut self, name: &str) -> bool
        ensures { MatchBool result
            (self.new ≡ record self.old { read_faults = one_more self.old.read_faults; bad_name = name.now })
            (self.new ≡ self.old) }
    {
        let Ok(name) = String::from_str(self.alloc, name) else {
            return false;
        };
        self.bad_name = name;
        self.read_faults = one_more(self.read_faults);
        true
    }
}

// The entries of these files.
fn entries_of(alloc: Global, files: Vec<(String, Vec<u8>)>) -> Result<Vec<Entry>, Memory>
    ensures { IfOk result (λ es. es.items ≡ map (λ f. given (string_bytes f.0) f.1.items) files.items) }
{
    let mut entries = Vec::new(alloc);
    let mut files = files;
    while !files.is_empty() {
        let (name, bytes) = files.remove(0);
        push_entry(&mut entries, Entry::file_of(name, bytes))?;
    }
    Ok(entries)
}

impl Store for MemStore {
    ghost files = { λ s. Some (file_at s.held) };

    ghost read_faults = { λ s. s.read_faults };

    ghost write_faults = { λ s. s.write_faults };

    ghost bad_name = { λ s. s.bad_name };

    fn get(&mut self, name: &str, limit: usize) -> Result<Vec<u8>, GetFault>
        requires { limit < usize.MAX }
        ensures told { Answers limit (file_at self.old.held name.now) result }
        ensures within { IfOk result (λ bytes. length bytes.items ≤ limit) }
        ensures seen { IfSeen (λ seen. seen ≡ limit + 1) result }
        ensures files { Some (file_at self.new.held) ≡ Some (file_at self.old.held) }
        ensures later { self.old.read_faults ≤ self.new.read_faults }
        ensures cause { MatchFailed result
            (Rose self.old.read_faults self.new.read_faults)
            (self.new.read_faults ≡ self.old.read_faults) }
        ensures bad { MatchFailed result (self.new.bad_name ≡ name.now) (self.new.bad_name ≡ self.old.bad_name) }
        ensures writes { self.new.write_faults ≡ self.old.write_faults }
        // It fails exactly where its number is listed or there is no such file.
        ensures exact { MatchAnswer result
            (fails_next self.old.failing_gets self.old.gets ≡ false)
            ((fails_next self.old.failing_gets self.old.gets ≡ true) ⊎ (file_at self.old.held name.now ≡ None)) }
        ensures rest { (self.new.held ≡ self.old.held) × (self.new.failing_gets ≡ self.old.failing_gets)
            × (self.new.failing_puts ≡ self.old.failing_puts) × (self.new.gets ≡ one_more self.old.gets)
            × (self.new.puts ≡ self.old.puts) }
    {
        self.gets = one_more(self.gets);
        if is_listed(&self.failing_gets, self.gets) {
            return if self.count_failed_get(name) {
                Err(GetFault::Failed)
            } else {
                Err(GetFault::Memory)
            };
        }
        match file_in(&self.entries, name) {
            None => {
                if self.count_failed_get(name) {
                    Err(GetFault::Failed)
                } else {
                    Err(GetFault::Memory)
                }
            }
            Some(bytes) if bytes.len() <= limit => match Vec::from_slice(self.alloc, bytes) {
                Ok(copy) => Ok(copy),
                Err(_) => Err(GetFault::Memory),
            },
            Some(_) => Err(GetFault::TooLong { seen: limit + 1 }),
        }
    }

    fn put(&mut self, name: &str, bytes: &[u8]) -> Result<(), PutFault>
        ensures told { OnOk result (Writes name.now bytes.now (file_at self.old.held) (file_at self.new.held)) }
        ensures err { OnErr result (Some (file_at self.new.held) ≡ Some (file_at self.old.held)) }
        ensures cause { CountsFaults result self.old.write_faults self.new.write_faults }
        ensures reads { self.new.read_faults ≡ self.old.read_faults }
        ensures bad { self.new.bad_name ≡ self.old.bad_name }
        // It fails exactly where its number is listed or the bytes lack room.
        ensures exact { MatchResult result
            (λ _. (fails_next self.old.failing_puts self.old.puts ≡ false)
            × HasRoom (room_at self.old.held name.now) (length bytes.now))
            (λ _. (fails_next self.old.failing_puts self.old.puts ≡ true)
            ⊎ LacksRoom (room_at self.old.held name.now) (length bytes.now)) }
        ensures rooms { (other : List ℕ) → room_at self.new.held other ≡ room_at self.old.held other }
        ensures rest { (self.new.failing_gets ≡ self.old.failing_gets) × (self.new.failing_puts ≡ self.old.failing_puts)
            × (self.new.gets ≡ self.old.gets) × (self.new.puts ≡ one_more self.old.puts) }
    {
        self.puts = one_more(self.puts);
        if is_listed(&self.failing_puts, self.puts) {
            self.write_faults = one_more(self.write_faults);
            return Err(PutFault::Failed);
        }
        if write_file(&mut self.entries, name, bytes) {
            Ok(())
        } else {
            self.write_faults = one_more(self.write_faults);
            Err(PutFault::Failed)
        }
    }
}
