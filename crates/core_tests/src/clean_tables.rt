//! The table of a cleaner, call by call. What is kept beside a job is a number here, and so is the job.

use crate::scarce::{MOST, Trial, refuse_each};
use rationed::Rationed;
use ref_base::{Fault, ObjNo};
use ref_queue::CleanTable;
use std::alloc::{Allocator, Global};
use std::process::Abort;

/// Ends the table, in which no job is left.
fn end<A: Allocator + Copy>(rt: &impl Abort, table: CleanTable<u64, u64, A>) {
    match table.end() {
        Ok(()) => {}
        Err(_table) => panic!(rt; "a job is left"),
    }
}

/// Of two objects: what is registered and taken, one after the other.
fn give_out(rt: &impl Abort, table: &mut CleanTable<u64, u64>) {
    let (seven, eight) = (ObjNo(7), ObjNo(8));
    assert!(rt; table.first() == None);
    assert!(rt; table.register(seven, 70, 1) == Ok(()));
    assert!(rt; table.register(seven, 71, 2) == Err((Fault::RegisteredTwice, 71, 2)));
    assert!(rt; table.first() == Some(seven));
    assert!(rt; table.take(eight) == None);
    assert!(rt; table.take(seven) == Some((70, 1)));
    assert!(rt; table.take(seven) == None && table.take_any() == None);
    assert!(rt; table.register(seven, 72, 3) == Ok(()));
    assert!(rt; table.take_any() == Some((seven, 72, 3)));
    assert!(rt; table.take(seven) == None && table.first() == None);
    assert!(rt; table.register(seven, 73, 3) == Ok(()));
    assert!(rt; table.register(eight, 80, 4) == Ok(()));
    // Two are left.
    assert!(rt; table.take_any().is_some() && table.take_any().is_some());
    assert!(rt; table.take_any() == None);
}

#[test]
fn each_job_is_given_out_once(rt: HostRuntime) {
    let mut table = CleanTable::new(rt.alloc());
    give_out(&rt, &mut table);
    end(&rt, table);
}

/// Of two objects whose table is closed.
fn give_out_closed(rt: &impl Abort, table: &mut CleanTable<u64, u64>) {
    let (seven, eight) = (ObjNo(7), ObjNo(8));
    assert!(rt; table.register(seven, 70, 1) == Ok(()));
    assert!(rt; table.register(eight, 80, 2) == Ok(()));
    table.close();
    // The closed table is told of first.
    assert!(rt; table.register(seven, 71, 3) == Err((Fault::TableClosed, 71, 3)));
    assert!(rt; table.register(ObjNo(9), 90, 4) == Err((Fault::TableClosed, 90, 4)));
    assert!(rt; table.take(eight) == Some((80, 2)));
    table.close();
    assert!(rt; table.take(eight) == None);
    // One is left.
    assert!(rt; table.take_any().is_some() && table.take_any() == None);
}

#[test]
fn a_closed_table_still_gives_out_what_it_has(rt: HostRuntime) {
    let mut table = CleanTable::new(rt.alloc());
    give_out_closed(&rt, &mut table);
    end(&rt, table);
}

/// A job that is registered for this object. Where it is refused it comes back, and there is none of this object.
struct Register<'a> {
    table: CleanTable<u64, u64, &'a Rationed<Global>>,
    object: u32,
}

impl<'a> Trial for Register<'a> {
    fn call(&self) -> &'static str {
        "CleanTable::register"
    }

    fn is_made(&mut self, rt: &impl Abort) -> bool {
        let job = u64::from(self.object);
        match self.table.register(ObjNo(self.object), 70, job) {
            Ok(()) => true,
            Err(back) => {
                assert!(rt; back == (Fault::NoMemory, 70, job));
                false
            }
        }
    }

    fn stays(&self, rt: &impl Abort) {
        assert!(rt; !self.table.has(ObjNo(self.object)), "there is no job");
    }
}

#[test]
fn a_job_without_memory_comes_back(rt: HostRuntime) {
    let memory = Rationed::new(rt.alloc());
    let mut trial = Register {
        table: CleanTable::new(&memory),
        object: 0,
    };
    let mut requests = 0u64;
    for object in 0..100 {
        trial.object = object;
        requests = requests.saturating_add(refuse_each(&rt, &memory, &mut trial));
    }
    assert!(rt; 1 < requests && requests < MOST, "{requests} requests");
    let Register {
        mut table,
        object: _,
    } = trial;
    for object in 0..100 {
        assert!(rt; table.take(ObjNo(object)) == Some((70, u64::from(object))));
    }
    end(&rt, table);
}
