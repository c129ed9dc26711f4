//! The exceptions of a store, as they are kept.

ghost use Rattle.std.specs.Prelude.{◌≡◌, ℕ, ◌+◌, ◌-◌, ◌*◌, ◌^◌, ◌<◌, ◌≤◌, length, take, IfOk, Ok};
ghost use Rattle.std.specs.Prelude.{IsErrOf, []};
ghost use Rattle.vab_store.specs.Scan.{repeat_of, unless_repeated};
ghost use Rattle.std.specs.List.Sorted.{IsStrictlyIncreasing};
ghost use Rattle.vab_space.specs.Chunks.{new_chunk_of};
ghost use Rattle.vab_store.specs.Setting.{entry_place, set_entry, HaveData, IsLowestFree};
ghost use Rattle.vab_store.specs.View.{exception_at, view_of};
ghost use Rattle.vab_store.specs.Writing.{planned_of};

use crate::free::{first_clear, taken_chunks};
use crate::index::{
    Key, Place, earlier, first_tie, index_of, place_of, rank_of, repeat_by, sorted_by,
};
use crate::writer::planned;
use crate::{Steps, StoreFault};
use std::alloc::Global;
use std::marker::{Brand, Model};
use std::sync::ledger::{Blank, Ledger};
use vab_disk::NoMemory;
use vab_exceptions::Exception;
use vab_space::Chunk;

/// The exceptions of a store in the order of its entries, with an index by their old chunks. Each
/// takes 32 bytes. Contracts see the list.
#[derive(Drop)]
pub struct StoreView {
    items: Vec<Exception>,
    index: Vec<Place>,
}

impl Model for StoreView {
    ghost use Rattle.std.specs.Prelude.{List};
    ghost use Rattle.vab_exceptions.specs.declared.area.Exception.{Exception as ExceptionOf};

    ghost Value = { List ExceptionOf };

    ghost use Rattle.vab_store.specs.declared.index.Key.TheVariants.{Old};
    ghost use Rattle.vab_store.specs.Index.{IsIndexed};

    ghost view = { λ v. v.items.items };

    ghost invariant = { λ v. IsIndexed Old v.items.items v.index.items };
}

impl StoreView {
    ghost use Rattle.vab_store.specs.Answers.{Answers};

    /// No exceptions, of a partition that has no store. Takes no memory.
    pub fn empty(alloc: Global) -> StoreView
        ensures { result ≡ [] }
    {
        StoreView {
            items: Vec::new(alloc),
            index: Vec::new(alloc),
        }
    }

    /// What a scan gives of a store that is written for these chunks, which ascend.
    pub fn planned(alloc: Global, olds: &[u64], chunk: Chunk) -> Result<StoreView, NoMemory>
        requires { IsStrictlyIncreasing olds.now }
        ensures { IfOk result (λ v. v ≡ planned_of chunk olds.now) }
    {
        let mut items = Vec::with_capacity(alloc, olds.len())?;
        let mut index = Vec::with_capacity(alloc, olds.len())?;
        for j in 0..olds.len() {
            items.push(planned(chunk, olds, j))?;
            index.push(Place {
                key: olds[j],
                at: j as u64,
            })?;
        }
        Ok(StoreView { items, index })
    }

    /// These exceptions in their order, or the first two that share an old or a new chunk.
    pub fn indexed(alloc: Global, items: Vec<Exception>) -> Result<StoreView, StoreFault>
        ensures answers { Answers result
            (unless_repeated (repeat_of items.items) (Ok items.items)) }
        ensures kind { IsErrOf result StoreFault.DiskFault → ⊥ }
    {
        let by_new = match repeat_by(alloc, &items, Key::New) {
            Ok(repeat) => repeat,
            Err(NoMemory) => return Err(StoreFault::NoMemory),
        };
        let index = match sorted_by(alloc, &items, Key::Old) {
            Ok(places) => places,
            Err(NoMemory) => return Err(StoreFault::NoMemory),
        };
        match earlier(first_tie(&index), by_new) {
            Some((j, k)) => Err(StoreFault::Repeated(j, k)),
            None => Ok(StoreView { items, index }),
        }
    }

    /// How many exceptions there are.
    pub fn count(&self) -> u64
        ensures { result ≡ length self.now }
    {
        self.items.len() as u64
    }

    /// The j-th exception, counted from 0.
    pub fn at(&self, j: u64) -> Exception
        requires { j < length self.now }
        ensures { result ≡ exception_at self.now j }
    {
        self.items[j as usize]
    }

    /// The new chunk of this old chunk, where an exception has it, with so many comparisons of old
    /// chunks counted.
    pub fn find<L: Ledger>(&self, old: u64, steps: &mut Steps<L>) -> Option<u64>
        ensures found { result ≡ view_of self.now old }
        ensures cost { 2 ^ (steps.new - steps.old) ≤ 2 * length self.now + 1 }
        ensures grows { steps.old ≤ steps.new }
    {
        match place_of(&self.index, old, steps) {
            Some(at) => Some(self.items[at as usize].new_chunk),
            None => None,
        }
    }

    fn find_from<L: Ledger>(&self, old: u64, blank: Blank) -> Option<u64>
        requires name { blank.name ≡ L.name }
        requires parts { blank.parts ≡ L.parts }
        requires some { 0 < L.parts }
        ensures { result ≡ view_of self.now old }
    {
        let mut steps = Steps::<L>::new(blank);
        self.find(old, &mut steps)
    }

    /// The new chunk of this old chunk, where an exception has it.
    pub fn chunk_of(&self, old: u64) -> Option<u64>
        ensures { result ≡ view_of self.now old }
    {
        self.find_from::<Brand>(old, Blank::new(1))
    }

    /// The place of the exception that has this old chunk, or the one behind all where none has it.
    pub fn place_of(&self, old: u64) -> u64
        ensures { result ≡ entry_place self.now old }
    {
        let rank = rank_of(&self.index, old);
        if rank < self.index.len() && self.index[rank].key == old {
            self.index[rank].at
        } else {
            self.items.len() as u64
        }
    }

    /// These exceptions with a new chunk for this old one: in the place of the exception that has
    /// the old one, or behind all.
    pub fn with_chunk(&self, old: u64, new: u64) -> Result<StoreView, NoMemory>
        ensures { IfOk result (λ v. v ≡ set_entry self.now old new) }
    {
        let alloc = *self.items.allocator();
        let mut items = Vec::from_slice(alloc, &self.items)?;
        let mut index = Vec::from_slice(alloc, &self.index)?;
        let exception = Exception {
            old_chunk: old,
            new_chunk: new,
        };
        let at = self.place_of(old);
        if at < items.len() as u64 {
            items[at as usize] = exception;
            return Ok(StoreView { items, index });
        }
        index.insert(rank_of(&self.index, old), Place { key: old, at })?;
        items.push(exception)?;
        Ok(StoreView { items, index })
    }

    /// The lowest data chunk that no exception has. It is at most the chunk that a writer gives the
    /// next exception.
    pub fn free_chunk(&self, chunk: Chunk) -> Result<u64, NoMemory>
        requires small { length self.now < 2 ^ 62 }
        requires chunks { HaveData chunk self.now }
        ensures lowest { IfOk result (IsLowestFree chunk self.now) }
        ensures most { IfOk result (λ c. c ≤ new_chunk_of chunk (length self.now)) }
    {
        let taken = taken_chunks(*self.items.allocator(), &self.items, chunk)?;
        Ok(chunk.new_chunk(first_clear(&taken) as u64))
    }

    /// Drops the last exception.
    pub fn drop_last(&mut self)
        requires { 0 < length self.old }
        ensures { self.new ≡ take (length self.old - 1) self.old }
    {
        let last = self.items.len() - 1;
        self.items.truncate(last);
        let i = index_of(&self.index, last as u64);
        self.index.remove(i);
    }
}
