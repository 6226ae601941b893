//! Files that jobs read, one behind another.
ghost use Rattle.std.specs.Prelude.{◌≡◌, ◌<◌, ◌≤◌, ◌++◌, ◌∷◌, [], IfErr, IfOk, IfSome, MatchResult, length};
ghost use Rattle.job_files.specs.Answers.{IsOrNoMemory, answer_of, no_memory, read_fault, too_large};
ghost use Rattle.job_files.specs.Reads.{AreHad, AreNotHad, CountsUnhad, CountsUnread, IsHad, IsUnread, two_texts, two_wanted};

use crate::status::Status;
use base_io::{GetFault, Store};
use std::alloc::Global;

fn read_fault(alloc: Global, name: &str) -> Status
    ensures { IsOrNoMemory result (read_fault name.now) }
{
    match String::from_str(alloc, name) {
        Ok(name) => Status::ReadFault { name },
        Err(_) => Status::Memory,
    }
}

fn too_large(alloc: Global, name: &str, seen: usize) -> Status
    ensures { IsOrNoMemory result (too_large name.now seen) }
{
    match String::from_str(alloc, name) {
        Ok(name) => Status::TooLarge { name, seen },
        Err(_) => Status::Memory,
    }
}

/// The bytes of a file, of which there may be so many, or why they can't be had.
pub fn read<S: Store>(
    alloc: Global,
    name: &str,
    most: usize,
    store: &mut S,
) -> Result<Vec<u8>, Status>
    requires most { most < usize.MAX }
    ensures files { S.files store.new ≡ S.files store.old }
    ensures writes { S.write_faults store.new ≡ S.write_faults store.old }
    ensures later { S.read_faults store.old ≤ S.read_faults store.new }
    ensures told { IfSome (S.files store.old) (λ files. MatchResult result
        (λ bytes. IsHad files most name.now bytes.items)
        (λ status. IsUnread files most name.now (answer_of status))) }
    ensures within { IfOk result (λ bytes. length bytes.items ≤ most) }
    ensures counts { MatchResult result
        (λ bytes. S.read_faults store.new ≡ S.read_faults store.old)
        (λ status. CountsUnread most name.now (S.read_faults store.old) (S.read_faults store.new) (S.bad_name store.new) (answer_of status)) }
{
    match store.get(name, most) {
        Ok(bytes) => Ok(bytes),
        Err(GetFault::Failed) => Err(read_fault(alloc, name)),
        Err(GetFault::TooLong { seen }) => Err(too_large(alloc, name, seen)),
        Err(GetFault::Memory) => Err(Status::Memory),
    }
}

/// What two files hold.
#[derive(Drop)]
pub struct TwoTexts {
    pub first: Vec<u8>,
    pub second: Vec<u8>,
}

/// The bytes of two files, which are read in this order, or why they can't be had.
pub fn read_two<S: Store>(
    alloc: Global,
    name: &str,
    most: usize,
    other: &str,
    other_most: usize,
    store: &mut S,
) -> Result<TwoTexts, Status>
    requires most { most < usize.MAX }
    requires other_most { other_most < usize.MAX }
    ensures files { S.files store.new ≡ S.files store.old }
    ensures writes { S.write_faults store.new ≡ S.write_faults store.old }
    ensures later { S.read_faults store.old ≤ S.read_faults store.new }
    ensures told { IfSome (S.files store.old) (λ files. MatchResult result
        (λ t. AreHad files (two_wanted most name.now other_most other.now) (two_texts t.first.items t.second.items))
        (λ status. AreNotHad files (two_wanted most name.now other_most other.now) (answer_of status))) }
    ensures counts { MatchResult result
        (λ t. S.read_faults store.new ≡ S.read_faults store.old)
        (λ status. CountsUnhad (two_wanted most name.now other_most other.now) (S.read_faults store.old) (S.read_faults store.new) (S.bad_name store.new) (answer_of status)) }
    ensures within { IfOk result (λ t. (length t.first.items ≤ most) × (length t.second.items ≤ other_most)) }
{
    let first = read(alloc, name, most, store)?;
    let second = read(alloc, other, other_most, store)?;
    Ok(TwoTexts { first, second })
}

/// Adds an element, if there is memory for it.
pub fn add<T: Drop>(all: &mut Vec<T>, more: T) -> Result<(), Status>
    ensures added { IfOk result (λ _. all.new.items ≡ all.old.items ++ more ∷ []) }
    ensures fault { IfErr result (λ s. answer_of s ≡ no_memory) }
{
    match all.push(more) {
        Ok(()) => Ok(()),
        Err(_) => Err(Status::Memory),
    }
}
