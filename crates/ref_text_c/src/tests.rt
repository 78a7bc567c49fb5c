//! What is told of texts, and what stands in the buffer then, against worked ones.

use crate::answer::RefText;
use crate::{ref_text_run, ref_text_strength};
use std::alloc::Global;
use std::test::Fail;

/// What stands in a buffer before a call.
const BLANK: u8 = b'~';

/// What stands in an answer before a call.
const NOTHING_TOLD: RefText = RefText {
    status: 1000,
    fault: 1000,
    line: 1000,
    length: 1000,
};

/// Which call a text is for.
#[derive(Clone, Copy)]
enum Call {
    Run,
    List,
}

/// A job is run, and then it is gone; no job has number 64.
const JOBS: &'static [u8] = b"refscript 1
config 2 2 2 8 10
m0 new s0 0
m1 new s0 0
m1 weak s1 s0 q1 0
m1 job s1 63
m1 job s1 64
m1 run s1
m1 run s1
";

const ROWS: &'static [u8] = b"reftrace 1
1 m0 new s0 0 : object 1
2 m1 new s0 0 : object 2
3 m1 weak s1 s0 q1 0 : object 3
4 m1 job s1 63 : ok
5 m1 job s1 64 : used
6 m1 run s1 : ran 63 1063
7 m1 run s1 : gone
";

const GRAPH: &'static [u8] = b"refgraph 1\nroot 1\nplain 1 2\nsoft 2 3\nplain 3\nplain 4\n";

const STRENGTHS: &'static [u8] = b"1 strong\n2 strong\n3 soft\n4 unreachable\n";

/// A text with so much room, its status, its length, and what it prints: with more room than it needs, with just as
/// much, with a byte less, and with none.
static PRINTED: [(Call, &'static [u8], usize, u32, usize, &'static [u8]); 8] = [
    (Call::Run, JOBS, 256, 0, 180, ROWS),
    (Call::Run, JOBS, 180, 0, 180, ROWS),
    (Call::Run, JOBS, 179, 1, 180, b""),
    (Call::Run, JOBS, 0, 1, 180, b""),
    (Call::List, GRAPH, 256, 0, 39, STRENGTHS),
    (Call::List, GRAPH, 39, 0, 39, STRENGTHS),
    (Call::List, GRAPH, 38, 1, 39, b""),
    (Call::List, b"refgraph 1\nroot 7\n", 0, 0, 0, b""),
];

/// A text with a fault, the number of the fault, and its line.
static FAULTY: [(Call, &'static [u8], u32, u64); 12] = [
    (
        Call::List,
        b"refgraph 1\n####################################################################\
        ####################################################################\
        #################################################################\n",
        1,
        2,
    ),
    (Call::Run, b"# \xff\n", 2, 1),
    (Call::Run, b"\nrefscript 3\n", 3, 2),
    (Call::List, b"refscript 1\n", 3, 1),
    (Call::Run, b"refscript 1\nconfig 1 1 1 0 10\n", 4, 2),
    (
        Call::Run,
        b"refscript 1\nconfig 1 1 1 8 10\nm0 sing\n",
        5,
        3,
    ),
    (Call::List, b"refgraph 1\nleaf 1\n", 6, 2),
    (
        Call::Run,
        b"refscript 1\nconfig 1 1 1 8 10\nm0 new s0\n",
        7,
        3,
    ),
    (
        Call::Run,
        b"refscript 1\nconfig 1 1 1 8 10\nm0 new x 0\n",
        8,
        3,
    ),
    (
        Call::Run,
        b"refscript 1\nconfig 1 1 1 8 10\nm0 put x\n",
        9,
        3,
    ),
    (Call::List, b"refgraph 1\nplain 1\nplain 1\n", 10, 3),
    (Call::List, b"refgraph 1\nplain 1\nsoft 2\nplain 1\n", 7, 3),
];

/// What is told of a text with this buffer: status, fault, line and length.
fn told(alloc: Global, call: Call, text: &[u8], buffer: &mut [u8]) -> (u32, u32, u64, usize) {
    let mut told = NOTHING_TOLD;
    match call {
        Call::Run => ref_text_run(alloc, text, buffer, &mut told),
        Call::List => ref_text_strength(alloc, text, buffer, &mut told),
    }
    (told.status, told.fault, told.line, told.length)
}

/// Whether nothing was written here.
fn is_blank(buffer: &[u8]) -> bool {
    buffer.iter().all(|byte| *byte == BLANK)
}

#[test]
fn a_text_is_printed_where_there_is_room_for_all_of_it(rt: HostRuntime) {
    for (call, text, room, status, length, prints) in PRINTED {
        let mut buffer = [BLANK; 256];
        let answer = told(rt.alloc(), call, text, &mut buffer[..room]);
        assert_eq!(rt; answer, (status, 0, 0, length));
        let (front, behind) = buffer.split_at(prints.len());
        assert_eq!(rt; front, prints);
        assert!(rt; is_blank(behind));
    }
}

#[test]
fn the_first_fault_is_told_with_its_line(rt: HostRuntime) {
    for (call, text, fault, line) in FAULTY {
        let mut buffer = [BLANK; 64];
        let answer = told(rt.alloc(), call, text, &mut buffer);
        assert_eq!(rt; answer, (2, fault, line, 0));
        assert!(rt; is_blank(&buffer));
    }
}

#[test]
fn a_text_of_more_than_4194304_bytes_is_too_long(rt: HostRuntime) -> Result<(), Fail> {
    let text = vec![in rt.alloc(); b'\n'; 4_194_305]?;
    for call in [Call::Run, Call::List] {
        let mut buffer = [BLANK; 64];
        let answer = told(rt.alloc(), call, text.as_slice(), &mut buffer);
        assert_eq!(rt; answer, (3, 0, 0, 0));
        assert!(rt; is_blank(&buffer));
    }
    Ok(())
}
