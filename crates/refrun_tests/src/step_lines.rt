//! Lines of steps: that a script may have a line of each kind, and what is wrong with each where it has a fault. In a
//! table a bar stands between two lines.

use crate::cases::Task;
use crate::texts::{printed, whole};
use refrun::{LineFault, TextFault};
use std::alloc::Global;
use std::process::Abort;

/// A line of each step; actors, slots and queues may be outside the configuration.
const READ: [&str; 7] = [
    "m0 new s0 0|m0 soft s1 s0 q0 0|m0 weak s1 s0 - 0|m0 phantom s1 s0 q0 8|m0 store s0 1 s2|m0 load s2 s0 1",
    "m0 copy s1 s0|m0 drop s0|m0 get s2 s1|m0 clear s1|m0 refers s1 s0|m0 unhook s1|m0 put|m0 poll q0|m0 adopt s1",
    "m0 release|m0 close q0|m0 puts|m0 polls q0 2|m0 polls q15 4294967295|m0 job s1 3|m0 job s0001 4294967295",
    "m0 run s1|w0 scan|w0 clearnext|w0 hand|w0 sweep|w0 move|w0 put|w0 release|w0 puts|w0 hands 32|begin 5 normal",
    "begin 5 urgent|endmark|endclear|endsweep|select|endmove|m0 weak s00 s01 q02 003|m4294967295 drop s4294967295",
    "  w7   scan |begin 18446744073709551615 urgent|begin 00000000000000000005 normal|m0 put\r|m0 new s0 0 \r",
    "m00000000004294967295 put|m0 drop s00000000000000000000|m0 poll q00000004294967295",
];

/// The actor's letter or the name is that of no step, or the name is missing, whatever else is wrong.
const UNKNOWN: [&str; 4] = [
    "m0|w0|m|begins 5 normal|5 begin normal|normal|x0 put|M0 put|0 put|m0 Put|m0 putss|m0 hands 2|w0 polls q0 2",
    "m0 fly s0|m0 scan|m0 begin 5 normal|m0 endmark|w0 new s0 0|w0 poll q0|w0 endmark|w0 begin 5 normal|w0 scans",
    "endmarks|end mark|w0 job s1 1|w0 run s1|m0 -|put m0|wx|mx fly s0 x|m0 put\r\r|m0\rput|m0\tput|\tm0 put|m0 put\0",
    "\0|m0 drop\ts0|+m0 put|begin5 normal|endmark# x",
];

/// A word is missing, whatever else is wrong.
const MISSING: [&str; 4] = [
    "m0 new s0|m0 new|m0 soft s1 s0 q0|m0 soft|m0 weak s1 s0 -|m0 weak|m0 phantom s1 s0 q0|m0 phantom|m0 store s0 1",
    "m0 store|m0 load s2 s0|m0 load|m0 copy s1|m0 copy|m0 drop|m0 get s2|m0 get|m0 clear|m0 refers s1|m0 refers",
    "m0 unhook|m0 poll|m0 polls q0|m0 polls|w0 hands|m0 adopt|m0 close|m0 job s1|m0 job|m0 run|begin 5|begin",
    "mx new s0|m0 store 0 s0",
];

/// The actor's number or an operand isn't of its form.
const BAD: [&str; 17] = [
    "m new s0 0|m0 new 0 0|m0 new s0 s0|mm0 soft s1 s0 q0 0|m0 soft s s0 q0 0|m0 soft s1 m0 q0 0|m0 soft s1 s0 0 0",
    "m0 soft s1 s0 q0 -|m-1 weak s1 s0 - 0|m0 weak s4294967296 s0 - 0|m0 weak s1 0 - 0|m0 weak s1 s0 -- 0",
    "m0 weak s1 s0 - 4294967296|m4294967296 phantom s1 s0 q0 8|m0 phantom s s0 q0 8|m0 phantom s1 m0 q0 8",
    "m0 phantom s1 s0 s0 8|m0 phantom s1 s0 q0 1x|m0x store s0 1 s2|m0 store s4294967296 1 s2|m0 store s0 s0 s2",
    "m0 store s0 1 0|mutator0 load s2 s0 1|m0 load s s0 1|m0 load s2 m0 1|m0 load s2 s0 -|m copy s1 s0",
    "m0 copy s4294967296 s0|m0 copy s1 0|mm0 drop s0|m0 drop s|m-1 get s2 s1|m0 get m0 s1|m0 get s2 s4294967296",
    "m4294967296 clear s1|m0 clear 0|m0x refers s1 s0|m0 refers s s0|m0 refers s1 m0|mutator0 unhook s1",
    "m0 unhook s4294967296|m put|mm0 poll q0|m0 poll q-1|m-1 adopt s1|m0 adopt 0|m4294967296 release|m0x close q0",
    "m0 close q4294967296|m puts|w0x puts|m4294967296 polls q0 2|m0 polls 0 2|m0 polls - 2|m0 polls q0 q2|w-1 hands 2",
    "w0 hands w2|w0 hands 4294967296|m0x job s1 1|m0 job 1 1|m0 job s1 s1|m0 job s1 4294967296|m run s1|m0 run 1",
    "w scan|ww0 clearnext|w4294967296 hand|w0x sweep|worker put|w-1 release|begin 18446744073709551616 normal",
    "begin 5 slow|begin x urgent|begin 5 Normal|m0 drop 0 x|m0x put x|begin 5 slow x|m+0 put|m0 new s+1 0",
    "m0 new s0 +1|m0 new s0 -0|m0 new S0 0|m0 new s0 0x1|m0 new s0 1.0|m0 new s0 1_0|m0 new s0 1,0",
    "m0 new s0 99999999999999999999|m0 new s0 18446744073709551616|m000000000000000000000 put",
    "m0 drop s000000000000000000000|m0 poll -|m0 poll Q0|m0 weak s1 - - 0|m0 store s0 1 -|m0 adopt -|begin +5 normal",
    "begin -5 normal|begin 99999999999999999999 normal|begin 000000000000000000000 normal|m0 drop s0\r\r|m0 drop s0\t",
    "m0 drop s0\0|m0 drop \rs0|m0 job s0 -1",
];

/// A word stands behind the last operand.
const EXTRA: [&str; 6] = [
    "m0 new s0 0 x|m0 soft s1 s0 q0 0 x|m0 weak s1 s0 - 0 x|m0 phantom s1 s0 q0 8 x|m0 store s0 1 s2 x",
    "m0 load s2 s0 1 x|m0 copy s1 s0 x|m0 drop s0 x|m0 get s2 s1 x|m0 clear s1 x|m0 refers s1 s0 x|m0 unhook s1 x",
    "m0 put x|m0 poll q0 x|m0 adopt s1 x|m0 release x|m0 close q0 x|m0 puts x|m0 polls q0 2 x|m0 job s1 1 x",
    "m0 run s1 x|w0 scan x|w0 clearnext x|w0 hand x|w0 sweep x|w0 move x|w0 put x|w0 release x|w0 puts x",
    "w0 hands 32 x|begin 5 normal x|begin 5 urgent x|endmark x|endclear x|endsweep x|select x|endmove x|m0 put s0 s0",
    "endmark w0",
];

/// What a script answers whose third line is this one, and whose fourth is no step.
fn answer_to(rt: &impl Abort, alloc: Global, line: &str) -> Result<(), TextFault> {
    let text = format!(in alloc; "refscript 1\nconfig 1 1 1 8 10\n{line}\nx\n");
    let (answer, _) = printed(Task::Run, alloc, alloc, whole(rt, text).as_bytes());
    answer
}

/// Each of these lines, as the third of a script, makes it answer so.
fn agree(rt: &impl Abort, alloc: Global, lines: &[&str], want: TextFault) {
    for row in lines {
        for line in row.split('|') {
            assert_eq!(rt; answer_to(rt, alloc, line), Err(want), "{line}");
        }
    }
}

#[test]
fn a_line_of_each_step_is_read(rt: HostRuntime) {
    let behind = TextFault::Line(4, LineFault::UnknownStep);
    agree(&rt, rt.alloc(), READ.as_slice(), behind);
}

#[test]
fn each_fault_of_a_step_is_told(rt: HostRuntime) {
    let tables = [
        (UNKNOWN.as_slice(), LineFault::UnknownStep),
        (MISSING.as_slice(), LineFault::MissingWord),
        (BAD.as_slice(), LineFault::BadWord),
        (EXTRA.as_slice(), LineFault::ExtraWord),
    ];
    for (lines, want) in tables {
        agree(&rt, rt.alloc(), lines, TextFault::Line(3, want));
    }
}
