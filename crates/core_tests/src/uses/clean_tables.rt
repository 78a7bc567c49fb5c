//! What a caller of a cleaner's table can prove of its answers.

ghost use Rattle.std.specs.Prelude.{◌≡◌, true};
ghost use Rattle.ref_queue.specs.CleanTables.{new_registry};

use ref_base::{Fault, ObjNo};
use ref_queue::CleanTable;
use std::alloc::Global;
use std::process::Abort;

// promise: CleanTable::register, CleanTable::close: a closed table takes no job while one stands in it
fn a_closed_table_registers_nothing(table: &mut CleanTable<u64, u64>) -> bool
    ensures { result ≡ true }
{
    let _stands = table.register(ObjNo(7), 70, 1);
    table.close();
    match table.register(ObjNo(8), 80, 2) {
        Err((Fault::TableClosed, kept, job)) => kept == 80 && job == 2,
        _ => false,
    }
}

// promise: CleanTable::register: a second job of an object doesn't take the first one's place
fn a_registered_job_stays(table: &mut CleanTable<u64, u64>) -> bool
    requires { table.old ≡ new_registry }
    ensures { result ≡ true }
{
    let Ok(()) = table.register(ObjNo(7), 70, 1) else {
        return true;
    };
    let _refused = table.register(ObjNo(7), 71, 2);
    match table.take(ObjNo(7)) {
        Some((kept, job)) => kept == 70 && job == 1,
        None => false,
    }
}

// promise: CleanTable::take, CleanTable::close: a closed table gives out what it has
fn a_closed_table_gives_its_jobs(table: &mut CleanTable<u64, u64>) -> bool
    requires { table.old ≡ new_registry }
    ensures { result ≡ true }
{
    let Ok(()) = table.register(ObjNo(7), 70, 1) else {
        return true;
    };
    table.close();
    table.take(ObjNo(7)).is_some()
}

// promise: CleanTable::take: no other object's job is given out
fn gives_no_other_objects_job(table: &mut CleanTable<u64, u64>) -> bool
    requires { table.old ≡ new_registry }
    ensures { result ≡ true }
{
    let _registered = table.register(ObjNo(8), 80, 2);
    table.take(ObjNo(7)).is_none()
}

// promise: CleanTable::take_any: a job is told with its own object
fn any_job_is_told_with_its_object(table: &mut CleanTable<u64, u64>) -> bool
    requires { table.old ≡ new_registry }
    ensures { result ≡ true }
{
    let Ok(()) = table.register(ObjNo(7), 70, 1) else {
        return true;
    };
    match table.take_any() {
        Some((object, ..)) => object == ObjNo(7),
        None => false,
    }
}

/// Ends a table in which one job is left at most.
fn end(rt: &impl Abort, mut table: CleanTable<u64, u64>) {
    let _left = table.take_any();
    match table.end() {
        Ok(()) => {}
        Err(_table) => panic!(rt; "a second job is left"),
    }
}

#[test]
fn what_callers_of_a_table_see(rt: HostRuntime) {
    let mut closed = CleanTable::new(rt.alloc());
    let mut given = CleanTable::new(rt.alloc());
    let mut second = CleanTable::new(rt.alloc());
    let mut other = CleanTable::new(rt.alloc());
    let mut any = CleanTable::new(rt.alloc());
    assert!(rt; a_closed_table_gives_its_jobs(&mut given));
    assert!(rt; a_registered_job_stays(&mut second));
    assert!(rt; gives_no_other_objects_job(&mut other));
    assert!(rt; a_closed_table_registers_nothing(&mut closed));
    assert!(rt; any_job_is_told_with_its_object(&mut any));
    end(&rt, closed);
    end(&rt, given);
    end(&rt, second);
    end(&rt, other);
    end(&rt, any);
}
