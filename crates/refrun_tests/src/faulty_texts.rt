//! Whole texts and their faults: headers and configurations, bytes that are no letters, and lines as long as a line may
//! be. Faults of a step's words stand in `step_lines`.

use crate::cases::Task;
use crate::texts::{printed, whole};
use refrun::LineFault::{
    self, BadConfig, BadHeader, BadWord, DoubleObject, ExtraWord, LineTooLong, MissingWord,
    NotAscii, UnknownLine, UnknownStep,
};
use refrun::TextFault;
use std::alloc::Global;
use std::process::Abort;

/// The line and the fault that are told of each of these texts, which bars divide.
type Row = (u64, LineFault, &'static [u8]);

/// Faulty headers of scripts, each with a configuration behind it.
const HEADERS: [Row; 9] = [
    (1, BadHeader, b"\0refscript 1|\x0brefscript 1|\trefscript 1"),
    (1, BadHeader, b"refscript\t1|refscript|refscript\n1"),
    (1, BadHeader, b"refscript1|refscript 01|refscript +1"),
    (1, BadHeader, b"refscript 0|refscript 3|refscript 02"),
    (1, BadHeader, b"refscript 2 2|refscript 12|reftrace 2"),
    (1, BadHeader, b"refscript 1 1|refscript 1 # x|Refscript 1"),
    (1, BadHeader, b"reftrace 1|refscript 1\r\r"),
    (1, NotAscii, b"\xef\xbb\xbfrefscript 1|refscript 1\x80"),
    (1, NotAscii, b"#\xff\nrefscript 1"),
];

/// What stands behind the header of a script, where it is faulty.
const CONFIGS: [Row; 14] = [
    (2, BadConfig, b"refscript 1\nconfig 1 1 1 1 0\n|m0 put\n"),
    (2, BadConfig, b"config\n|config 1 1 1 1\n"),
    (2, BadConfig, b"config 1 1 1 1 0 0\n|Config 1 1 1 1 0\n"),
    (2, BadConfig, b"config 1 1 1 1 -\n|config -1 1 1 1 0\n"),
    (2, BadConfig, b"config 1 +1 1 1 0\n|config 9 1 1 1 0\n"),
    (2, BadConfig, b"config 1 0 1 1 0\n|config 1 9 1 1 0\n"),
    (2, BadConfig, b"config 1 1 0 1 0\n|config 1 1 17 1 0\n"),
    (2, BadConfig, b"config 1 1 1 0 0\n|config 1 1 1 4097 0\n"),
    (2, BadConfig, b"config 4294967297 1 1 1 0\n"),
    (2, BadConfig, b"config 1 1 1 18446744073709551617 0\n"),
    (2, BadConfig, b"config 1 1 1 1 18446744073709551616\n"),
    (2, BadConfig, b"config 1 1 1 1 000000000000000000000\n"),
    (2, BadConfig, b"config 1 1 1 1 0\r|config 1 1 1 1 0\0\n"),
    (2, NotAscii, b"config 1 1 1 1 0\xff\n"),
];

/// Other scripts whose header or configuration is faulty, or a byte of which is no ASCII.
const HEADS: [Row; 10] = [
    (1, BadHeader, b"|\r|\0|refscript 1\rconfig 1 1 1 1 0\r"),
    (1, BadHeader, b"config 1 1 1 1 0\nrefscript 1\n"),
    (2, BadConfig, b"refscript 2|refscript 2\nconfig 1 1 1 0 0\n"),
    (2, BadConfig, b"refscript 2\nconfig 1 1 1 65537 0\n"),
    (2, BadConfig, b"refscript 2\nconfig 9 1 1 65536 0\n"),
    (2, BadConfig, b"refscript 1"),
    (2, BadHeader, b"\n|# refscript 1|\n\r"),
    (3, BadHeader, b"\r\n\r\n"),
    (4, BadConfig, b"refscript 1\n\n#\n"),
    (4, BadHeader, b"  \n\n#"),
];

/// What stands in front of the next table's texts.
const HEAD: &[u8] = b"refscript 1\nconfig 1 1 1 8 10\n";

/// Faults of lines from the third on: of two faulty lines the first is told, and each line counts.
const BEHIND: [Row; 12] = [
    (3, BadWord, b"m0 drop 0\n\xff\n|m0 drop s0\r"),
    (3, ExtraWord, b"m0 put x\nm0 fly\n|m0 put #\n"),
    (3, MissingWord, b"m0 drop\nm0 fly\n"),
    (3, NotAscii, b"\x80\n|# \xff\n|m0 fly \xff\n"),
    (3, NotAscii, b"m0 drop \xc2\xa0s0 x\n"),
    (3, UnknownStep, b"config 1 1 1 8 10\n|refscript 1\n"),
    (3, UnknownStep, b"m0 fly\nm0 drop\n|m0 put\rm0 put\n|\0\n"),
    (3, UnknownStep, b"\x1a"),
    (4, UnknownStep, b"m0 put\r\nm0 put\r|m0 put\n\rm0 put\n"),
    (5, NotAscii, b"m0 put\nm0 drop s0\n\xff"),
    (6, MissingWord, b"m0 put\nm9 put\nm0 adopt s99\nm0 drop"),
    (7, MissingWord, b"\n\r\n  \n# x\nm0 drop\n"),
];

/// Faulty graph texts.
const GRAPHS: [Row; 5] = [
    (1, BadHeader, b"\r|\0|refgraph 1\r|refgraph 1\0\n"),
    (1, BadHeader, b"refgraph\t1\n|refgraph\n1\n|refgraph 2\n"),
    (1, BadHeader, b"refgraph +1\n|plain 1\nrefgraph 1\n"),
    (1, NotAscii, b"\xef\xbb\xbfrefgraph 1\n|refgraph 1\xff\n"),
    (3, BadHeader, b"\n\n"),
];

/// What stands behind the header of a graph text, where it is faulty.
const GRAPH_LINES: [Row; 12] = [
    (2, BadWord, b"root 1\r|root -\n|root 4294967296\n"),
    (2, BadWord, b"plain +1\n|plain 1 -1\n|plain 1 2\0\n"),
    (2, BadWord, b"plain 1 18446744073709551617\n|soft 1 0\n"),
    (2, BadWord, b"weak 1 --\n|phantom 1 2 4294967296\n"),
    (2, ExtraWord, b"root 1 #\n|plain 1 - - - - - - - - -\n"),
    (2, MissingWord, b"root|root\r\n|plain\nsoft 1\n"),
    (2, NotAscii, b"#\x80|plain 1 \xff x\n"),
    (2, UnknownLine, b"refgraph 1\n|Plain 1\n|plain\t1\n|\0\n"),
    (2, UnknownLine, b"strong 1 2\n|1 plain\n"),
    (3, DoubleObject, b"plain 4294967295\nweak 4294967295 -\n"),
    (4, DoubleObject, b"plain 1\n\nplain 0001"),
    (4, DoubleObject, b"root 1\nplain 1\nplain 1\nplain\n"),
];

/// Each text of these rows, with this before and behind it, has its fault, and prints nothing.
fn have_faults(
    rt: &impl Abort,
    alloc: Global,
    (task, before, behind): (Task, &[u8], &[u8]),
    rows: &[Row],
) {
    for (place, &(line, fault, texts)) in rows.iter().enumerate() {
        for (nth, told) in texts.split(|byte| *byte == b'|').enumerate() {
            let text = joined(rt, alloc, before, told, behind);
            let (answer, output) = printed(task, alloc, alloc, text.as_slice());
            let want = Err(TextFault::Line(line, fault));
            assert!(rt; answer == want, "row {place}, text {nth}");
            assert!(rt; output.is_empty(), "row {place}, text {nth}");
        }
    }
}

/// These bytes, one behind the other.
fn joined(rt: &impl Abort, alloc: Global, first: &[u8], second: &[u8], third: &[u8]) -> Vec<u8> {
    let mut text = whole(rt, Vec::from_slice(alloc, first));
    whole(rt, text.extend_from_slice(second));
    whole(rt, text.extend_from_slice(third));
    text
}

#[test]
fn the_fault_of_the_first_faulty_line_is_told(rt: HostRuntime) {
    let none = b"".as_slice();
    let graph = b"refgraph 1\n".as_slice();
    let config = b"\nconfig 1 1 1 1 0\n".as_slice();
    let tables = [
        ((Task::Run, none, config), HEADERS.as_slice()),
        ((Task::Run, TITLE, none), CONFIGS.as_slice()),
        ((Task::Run, none, none), HEADS.as_slice()),
        ((Task::Run, HEAD, none), BEHIND.as_slice()),
        ((Task::List, none, none), GRAPHS.as_slice()),
        ((Task::List, graph, none), GRAPH_LINES.as_slice()),
    ];
    for (around, rows) in tables {
        have_faults(&rt, rt.alloc(), around, rows);
    }
}

const TITLE: &[u8] = b"refscript 1\n";

const CONFIG: &[u8] = b"config 1 1 1 1 0";

/// Last lines that are filled up with a byte: what is done with the text, what stands before, the line's number, how it
/// begins, the byte, and what 200 bytes of it answer.
const LAST_LINES: [(Task, &[u8], u64, &[u8], u8, Option<LineFault>); 13] = [
    (Task::Run, b"", 1, b"refscript 2", b'x', Some(BadHeader)),
    (Task::Run, b"", 1, b"refscript 1", 0x80, Some(NotAscii)),
    (Task::Run, TITLE, 2, CONFIG, b' ', None),
    (Task::Run, TITLE, 2, CONFIG, b'0', Some(BadConfig)),
    (Task::Run, HEAD, 3, b"", b' ', None),
    (Task::Run, HEAD, 3, b"#", b'#', None),
    (Task::Run, HEAD, 3, b"#", 0, None),
    (Task::Run, HEAD, 3, b"m0 put", b' ', None),
    (Task::Run, HEAD, 3, b"m0 drop s0", b'0', Some(BadWord)),
    (Task::Run, HEAD, 3, b"m0 fly", 0xff, Some(NotAscii)),
    (Task::List, b"", 1, b"refgraph 1", b' ', None),
    (Task::List, b"refgraph 1\n", 2, b"#", b'x', None),
    (Task::List, b"refgraph 1\n", 2, b"plain 1", b' ', None),
];

/// How a last line may end. A CR counts as a byte of its line.
const ENDS: [&[u8]; 3] = [b"", b"\n", b"\r\n"];

/// What a text answers whose last line begins so and is filled up to this length, a CR counted.
fn answer_at(
    rt: &impl Abort,
    alloc: Global,
    (task, before, start): (Task, &[u8], &[u8]),
    byte: u8,
    end: &[u8],
    length: usize,
) -> Result<(), TextFault> {
    let counted = start.len() + end.len().saturating_sub(1);
    let filling = vec![in alloc; byte; length.saturating_sub(counted)];
    let front = joined(rt, alloc, before, start, whole(rt, filling).as_slice());
    let text = joined(rt, alloc, front.as_slice(), end, b"");
    let (answer, _) = printed(task, alloc, alloc, text.as_slice());
    answer
}

#[test]
fn a_line_may_have_200_bytes(rt: HostRuntime) {
    for (task, before, line, start, byte, fault) in LAST_LINES {
        for end in ENDS {
            let text = (task, before, start);
            let answer = answer_at(&rt, rt.alloc(), text, byte, end, 200);
            let want = match fault {
                Some(fault) => Err(TextFault::Line(line, fault)),
                None => Ok(()),
            };
            assert!(rt; answer == want, "line {line} of 200 bytes");
            let answer = answer_at(&rt, rt.alloc(), text, byte, end, 201);
            let want = Err(TextFault::Line(line, LineTooLong));
            assert!(rt; answer == want, "line {line} of 201 bytes");
        }
    }
}
