//! The texts of numbers, faults, strengths, counts, and replies with numbers that no script comes to. All other steps
//! and replies stand in the traces of `refrun_cases`.

use crate::texts::whole;
use ref_base::{
    Done, Fault, MutNo, Nos, ObjNo, Outs, PlainStep, QueueNo, Reach, Reply, Row, SlotNo, Step,
    WorkerNo,
};
use refrun::Counts;
use std::alloc::Global;
use std::fmt;
use std::process::Abort;

/// Each prints so.
fn agree<T: fmt::Display>(rt: &impl Abort, alloc: Global, table: &[(T, &str)]) {
    for (row, (value, want)) in table.iter().enumerate() {
        assert_eq!(rt;
            whole(rt, format!(in alloc; "{value}")).as_str(),
            *want,
            "row {row}"
        );
    }
}

/// Each strength, and its name.
const STRENGTHS: [(Reach, &str); 5] = [
    (Reach::Strong, "strong"),
    (Reach::Soft, "soft"),
    (Reach::Weak, "weak"),
    (Reach::Phantom, "phantom"),
    (Reach::Unreachable, "unreachable"),
];

#[test]
fn each_number_prints_behind_its_letter_and_each_strength_as_its_name(rt: HostRuntime) {
    let alloc = rt.alloc();
    agree(&rt, alloc, &[(ObjNo(4_294_967_295), "4294967295")]);
    agree(&rt, alloc, &[(QueueNo(0), "q0")]);
    agree(&rt, alloc, &[(MutNo(0), "m0")]);
    agree(&rt, alloc, &[(WorkerNo(3), "w3")]);
    agree(&rt, alloc, &[(SlotNo(15), "s15")]);
    agree(&rt, alloc, &STRENGTHS);
}

#[test]
fn the_counts_of_a_stress_run_print_in_one_line(rt: HostRuntime) {
    let counts = Counts {
        rounds: 7,
        cycles: 4,
        urgent: 1,
        notices: 3,
        handed: 6,
        polled: 5,
        moves: 2,
        jobs: 8,
    };
    let line = "7 rounds, 4 cycles, 1 urgent, 3 notices, 6 and 5 batches, 2 moves, 8 jobs";
    let table = [(counts, line)];
    agree(&rt, rt.alloc(), &table);
}

/// Each fault, its number and its name.
const FAULTS: [(Fault, u32, &str); 25] = [
    (Fault::BadConfig, 1, "BadConfig"),
    (Fault::NoSuchObject, 2, "NoSuchObject"),
    (Fault::NoMemory, 3, "NoMemory"),
    (Fault::NoCell, 4, "NoCell"),
    (Fault::NumbersSpent, 5, "NumbersSpent"),
    (Fault::EmptySlot, 6, "EmptySlot"),
    (Fault::BadField, 7, "BadField"),
    (Fault::NotAReference, 8, "NotAReference"),
    (Fault::NoSuchActor, 9, "NoSuchActor"),
    (Fault::BadQueue, 10, "BadQueue"),
    (Fault::ForeignHold, 11, "ForeignHold"),
    (Fault::WrongPhase, 12, "WrongPhase"),
    (Fault::ClockBack, 13, "ClockBack"),
    (Fault::GreyLeft, 14, "GreyLeft"),
    (Fault::ClearingLeft, 15, "ClearingLeft"),
    (Fault::SweepLeft, 16, "SweepLeft"),
    (Fault::MovesLeft, 17, "MovesLeft"),
    (Fault::NoRoom, 18, "NoRoom"),
    (Fault::AddressesSpent, 19, "AddressesSpent"),
    (Fault::WrongQueue, 20, "WrongQueue"),
    (Fault::RegisteredTwice, 21, "RegisteredTwice"),
    (Fault::TableClosed, 22, "TableClosed"),
    (Fault::HandFull, 23, "HandFull"),
    (Fault::HandEmpty, 24, "HandEmpty"),
    (Fault::TurnsSpent, 25, "TurnsSpent"),
];

/// Each fault has this number and this name, and prints as the name.
fn faults_agree(rt: &impl Abort, alloc: Global, table: &[(Fault, u32, &str)]) {
    for &(fault, number, name) in table {
        assert_eq!(rt; fault.number(), number, "the number of {name}");
        assert_eq!(rt; fault.name(), name);
        agree(rt, alloc, &[(fault, name)]);
    }
}

#[test]
fn each_fault_has_its_number_and_prints_as_its_name(rt: HostRuntime) {
    faults_agree(&rt, rt.alloc(), &FAULTS);
}

/// What became of five notices, where nine were put in before.
fn outs() -> Outs {
    let mut outs = Outs::new(9);
    for done in [
        Done::Added,
        Done::Already,
        Done::Added,
        Done::Closed,
        Done::Refused(Fault::NoMemory),
    ] {
        if outs.len() < 5 {
            outs.push(done);
        }
    }
    outs
}

#[test]
fn replies_of_several_notices_and_a_row_print_as_in_a_trace(rt: HostRuntime) {
    let alloc = rt.alloc();
    let mut objects = Nos::new();
    objects.push(ObjNo(2));
    objects.push(ObjNo(4_294_967_295));
    objects.push(ObjNo(3));
    let notices = Reply::Notices {
        objects,
        queue: QueueNo(15),
        cycle: 7,
        worker: WorkerNo(1),
    };
    agree(
        &rt,
        alloc,
        &[(notices, "notices 2 4294967295 3 q15 cycle 7 w1")],
    );
    let outs = Reply::Outs(outs());
    let row = [(
        outs,
        "added 9, already, added 10, closed, refused 3 NoMemory",
    )];
    agree(&rt, alloc, &row);
    let step = Step::Plain(PlainStep::New {
        mutator: MutNo(0),
        slot: SlotNo(0),
        fields: 0,
    });
    let reply = Reply::Object(ObjNo(1));
    agree(
        &rt,
        alloc,
        &[(Row { step, reply }, "m0 new s0 0 : object 1")],
    );
}
