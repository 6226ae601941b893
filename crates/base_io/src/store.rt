//! Stores: files by their names.
ghost use Rattle.std.specs.Prelude.{◌≡◌, ◌+◌, ◌<◌, ◌≤◌, ℕ, List, Option, length, IfSome, IfOk, OnOk, OnErr};
ghost use Rattle.base_io.specs.Counts.{CountsFaults, Rose};
ghost use Rattle.base_io.specs.Files.{Files, WritesTold, Answers, IfSeen, MatchFailed};

/// Why a `get` of a store gave no bytes.
#[derive(Clone, Copy, Debug, PartialEq, Eq)]
pub enum GetFault {
    /// There is no such file, or it couldn't be read.
    Failed,
    /// The file has more bytes than the limit; `seen` is the limit and one.
    TooLong { seen: usize },
    /// There was no memory for the bytes, or for the name of a file that couldn't be read.
    Memory,
}

/// Why a `put` of a store wrote no file.
#[derive(Clone, Copy, Debug, PartialEq, Eq)]
pub enum PutFault {
    /// The file couldn't be written.
    Failed,
}

/// Files by their names. A store may tell what it holds.
pub trait Store {
    /// The files, where the store tells them.
    ghost files: { Self → Option Files };

    /// How often a `get` has failed. It never falls, and stays at 2^64 - 1 once it is there.
    ghost read_faults: { Self → ℕ };

    /// How often a `put` has failed. It never falls, and stays at 2^64 - 1 once it is there.
    ghost write_faults: { Self → ℕ };

    /// The name that the last `get` which failed was asked for; empty before any.
    ghost bad_name: { Self → List ℕ };

    /// The bytes of a file, where there are no more than the limit, which is counted in bytes.
    fn get(&mut self, name: &str, limit: usize) -> Result<Vec<u8>, GetFault>
        requires { limit < usize.MAX }
        ensures told { IfSome (files self.old) (λ files. Answers limit (files name.now) result) }
        ensures within { IfOk result (λ bytes. length bytes.items ≤ limit) }
        ensures seen { IfSeen (λ seen. seen ≡ limit + 1) result }
        ensures files { files self.new ≡ files self.old }
        // Failed comes only where the count rose, and nothing else raises it.
        ensures later { read_faults self.old ≤ read_faults self.new }
        ensures cause { MatchFailed result (Rose (read_faults self.old) (read_faults self.new))
            (read_faults self.new ≡ read_faults self.old) }
        ensures bad { MatchFailed result (bad_name self.new ≡ name.now) (bad_name self.new ≡ bad_name self.old) }
        ensures writes { write_faults self.new ≡ write_faults self.old };

    /// Makes the name hold the bytes, and changes no other name.
    fn put(&mut self, name: &str, bytes: &[u8]) -> Result<(), PutFault>
        ensures told { OnOk result (WritesTold name.now bytes.now (files self.old) (files self.new)) }
        ensures err { OnErr result (files self.new ≡ files self.old) }
        ensures cause { CountsFaults result (write_faults self.old) (write_faults self.new) }
        ensures reads { read_faults self.new ≡ read_faults self.old }
        ensures bad { bad_name self.new ≡ bad_name self.old };
}
