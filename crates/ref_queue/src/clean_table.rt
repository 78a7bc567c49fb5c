//! The table of a cleaner: which job is to run once which object is gone.

ghost use Rattle.indexmap.specs.IndexMap.{insert_entry};
ghost use Rattle.std.specs.Prelude.{◌≡◌, ◌≢◌, [], true, is_some, nat_eq, OnOk, IfErr, Some};

use crate::Job;
use indexmap::IndexMap;
use ref_base::{Fault, ObjNo};
use std::alloc::{Allocator, Global};
use std::hash::{BuildHasherDefault, FoldHasher};
use std::marker::Model;

/// The jobs that are registered, each under the number of the object that it is for, with what its caller keeps beside
/// it, which is a hold of that object as a rule. Each is given out at most once. Nothing of what stands in the table is
/// ever dropped: it must be taken out before the table is ended.
///
/// All its memory is of the allocator that it was made with.
pub struct CleanTable<K, J = Job, A: Allocator = Global> {
    jobs: IndexMap<ObjNo, (K, J), BuildHasherDefault<FoldHasher>, A>,
    is_closed: bool,
}

impl<K, J, A: Allocator> Model for CleanTable<K, J, A> {
    ghost use Rattle.ref_queue.specs.CleanTables.{Registry, registry_code};

    ghost Value = { Registry K J };

    ghost coded = { registry_code K.code J.code };

    ghost view = { λ s. record { jobs = s.jobs.entries; closed = s.is_closed } };
}

impl<K, J, A: Allocator + Copy> CleanTable<K, J, A> {
    ghost use Rattle.ref_queue.specs.CleanTables.{new_registry, job_of, Registers, Takes, TakesAny, FindsFirst};

    /// An open table where nothing is registered. Takes no memory.
    pub fn new(alloc: A) -> Self
        ensures { result ≡ new_registry }
    {
        CleanTable {
            jobs: IndexMap::new(alloc),
            is_closed: false,
        }
    }

    /// Registers a job for an object. In expected constant time, amortized.
    ///
    /// Tried in this order: `TableClosed`, `RegisteredTwice` where the object has a job that was not taken yet,
    /// `NoMemory` where a growth is refused. In each of the three what was handed in comes back, and nothing has
    /// changed.
    #[inline(always)]
    pub fn register(&mut self, object: ObjNo, kept: K, job: J) -> Result<(), (Fault, K, J)>
        ensures { Registers self.old object kept job result self.new }
    {
        if self.is_closed {
            return Err((Fault::TableClosed, kept, job));
        }
        match self.jobs.insert(object, (kept, job)) {
            Ok(None) => Ok(()),
            Ok(Some(before)) => {
                // It has a job: that one stays, and this one comes back.
                let (kept, job) = self.put_back(object, before);
                Err((Fault::RegisteredTwice, kept, job))
            }
            Err(refused) => {
                let (_, (kept, job)) = refused.value;
                Err((Fault::NoMemory, kept, job))
            }
        }
    }

    // Puts the object's job back in the place of the one that stands there, which comes out.
    #[inline(never)]
    fn put_back(&mut self, object: ObjNo, before: (K, J)) -> (K, J)
        requires { is_some (job_of self.old object) ≡ true }
        ensures out { job_of self.old object ≡ Some result }
        ensures after { self.new ≡ record self.old { jobs = insert_entry nat_eq self.old.jobs object before } }
    {
        match self.jobs.insert(object, before) {
            Ok(Some(out)) => out,
            Ok(None) => unreachable!(),
            Err(_) => unreachable!(),
        }
    }

    /// Takes the object's job out, with what was kept beside it: it is given out at most once. None where none is
    /// registered. Also of a closed table. In expected constant time. Takes no memory.
    #[inline(always)]
    pub fn take(&mut self, object: ObjNo) -> Option<(K, J)>
        ensures { Takes self.old object result self.new }
    {
        self.jobs.swap_remove(&object)
    }

    /// Whether the object has a job. Also of a closed table. In expected constant time. Takes no memory.
    #[inline(always)]
    pub fn has(&self, object: ObjNo) -> bool
        ensures { result ≡ is_some (job_of self.now object) }
    {
        self.jobs.contains_key(&object)
    }

    /// Takes any job out, with its object and what was kept beside it; none where the table is empty. So a table is
    /// emptied before it is ended. In expected constant time. Takes no memory.
    pub fn take_any(&mut self) -> Option<(ObjNo, K, J)>
        ensures { TakesAny self.old result self.new }
    {
        let first = self.first()?;
        let (kept, job) = self.jobs.swap_remove(&first)?;
        Some((first, kept, job))
    }

    /// Any object that has a job, none where the table is empty. In constant time. Takes no memory.
    pub fn first(&self) -> Option<ObjNo>
        ensures { FindsFirst self.now result }
    {
        self.jobs.get_index(0).map(|(object, _)| *object)
    }

    /// Closes the table: nothing is registered from now on. In constant time. Takes no memory.
    pub fn close(&mut self)
        ensures { self.new ≡ record self.old { closed = true } }
    {
        self.is_closed = true;
    }

    /// Ends the table. It comes back where a job stands in it. Takes no memory.
    pub fn end(self) -> Result<(), CleanTable<K, J, A>>
        ensures ok { OnOk result (self.jobs ≡ []) }
        ensures back { IfErr result (λ back. (back ≡ self) × (self.jobs ≢ [])) }
    {
        let CleanTable { jobs, is_closed } = self;
        if jobs.is_empty() {
            jobs.destroy_empty();
            return Ok(());
        }
        Err(CleanTable { jobs, is_closed })
    }
}
