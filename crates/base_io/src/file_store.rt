//! The files of the system as a store.
ghost use Rattle.std.specs.Prelude.{◌≡◌, [], None, MatchBool};
ghost use Rattle.std.specs.String.{string_bytes};
ghost use Rattle.base_io.specs.Counts.{one_more};

use crate::calls::one_more;
use crate::streams::{read_within, write_whole};
use crate::{GetFault, PutFault, Store};
use std::fs::File;
use std::rt::Files;

/// The files of the system. It tells nothing of what they hold.
#[derive(Drop)]
pub struct FileStore<R: Files + AllocGlobal + Drop> {
    rt: R,
    read_faults: u64,
    write_faults: u64,
    bad_name: String,
}

impl<R: Files + AllocGlobal + Drop> FileStore<R> {
    /// The files of the runtime's system, with counts of 0 and an empty bad name. It takes no memory.
    pub fn new(rt: R) -> FileStore<R>
        ensures reads { ⟦<FileStore<R> as Store>⟧.read_faults result ≡ 0 }
        ensures writes { ⟦<FileStore<R> as Store>⟧.write_faults result ≡ 0 }
        ensures bad { ⟦<FileStore<R> as Store>⟧.bad_name result ≡ [] }
    {
        let bad_name = String::new(rt.alloc());
        FileStore {
            rt,
            read_faults: 0,
            write_faults: 0,
            bad_name,
        }
    }

    // Counts a get that failed and keeps its name, or answers false where there is no memory for the name.
    fn count_failed_get(&mut self, name: &str) -> bool
        ensures bad { MatchBool result
            (string_bytes self.new.bad_name ≡ name.now)
            (self.new.bad_name ≡ self.old.bad_name) }
        ensures reads { MatchBool result
            (self.new.read_faults ≡ one_more self.old.read_faults)
            (self.new.read_faults ≡ self.old.read_faults) }
        ensures writes { self.new.write_faults ≡ self.old.write_faults }
    {
        let Ok(name) = String::from_str(self.rt.alloc(), name) else {
            return false;
        };
        self.bad_name = name;
        self.read_faults = one_more(self.read_faults);
        true
    }
}

impl<R: Files + AllocGlobal + Drop> Store for FileStore<R> {
    ghost files = { λ s. None };

    ghost read_faults = { λ s. s.read_faults };

    ghost write_faults = { λ s. s.write_faults };

    ghost bad_name = { λ s. string_bytes s.bad_name };

    fn get(&mut self, name: &str, limit: usize) -> Result<Vec<u8>, GetFault> {
        let answer = match File::open(&self.rt, name) {
            Ok(mut file) => read_within(self.rt.alloc(), &mut file, limit),
            Err(_) => Err(GetFault::Failed),
        };
        match answer {
            Err(GetFault::Failed) if !self.count_failed_get(name) => Err(GetFault::Memory),
            answer => answer,
        }
    }

    fn put(&mut self, name: &str, bytes: &[u8]) -> Result<(), PutFault> {
        let written = match File::create(&self.rt, name) {
            Ok(mut file) => write_whole(&mut file, bytes),
            Err(_) => false,
        };
        if written {
            Ok(())
        } else {
            self.write_faults = one_more(self.write_faults);
            Err(PutFault::Failed)
        }
    }
}
