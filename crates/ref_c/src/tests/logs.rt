//! Worked logs, in numbers. A line is a row, as in the stories of worlds. The last row of a log that isn't legal has
//! its verdict too, as the log's report tells it: kind, rule, what was settled, object, row and choice; and the numbers
//! of the answer that is named.

/// A row that breaks each of the rules, in the order of their numbers, behind legal ones.
pub const BREACHES: [&'static str; 21] = [
    "
m0 new s0 0 : object 1 | 0 0 0 0 0 0 | 64 0 1 0 0 0 0 |
m0 weak s1 s0 q0 0 : object 2 | 2 0 1 0 0 0 | 64 0 2 0 0 0 0 |
m0 drop s0 : ok | 7 0 0 0 0 0 | 66 0 0 0 0 0 0 |
begin 7 normal : cycle 1 | 20 0 0 0 0 0 | 80 0 0 0 0 0 1 |
w0 scan : scanned 2 | 21 0 0 0 0 0 | 81 0 2 0 0 0 0 |
w0 scan : none | 21 0 0 0 0 0 | 72 0 0 0 0 0 0 |
endmark : doomed 1 | 22 0 0 0 0 0 | 82 0 0 0 0 1 0 |
m0 get s3 s1 : object 1 | 8 0 3 1 0 0 | 64 0 1 0 0 0 0 | | 1 1 5 1 7 1 | 65 0 0 0 0 0 0
",
    "
begin 7 normal : cycle 1 | 20 0 0 0 0 0 | 80 0 0 0 0 0 1 |
endmark : doomed 0 | 22 0 0 0 0 0 | 82 0 0 0 0 0 0 |
w1 scan : none | 21 1 0 0 0 0 | 72 0 0 0 0 0 0 | | 1 2 3 0 2 1 | 89 12 0 0 0 0 0
",
    "
m0 new s0 0 : object 1 | 0 0 0 0 0 0 | 64 0 1 0 0 0 0 |
begin 7 normal : cycle 1 | 20 0 0 0 0 0 | 80 0 0 0 0 0 1 |
w0 scan : ok | 21 0 0 0 0 0 | 66 0 0 0 0 0 0 | | 1 3 0 0 0 2 | 72 0 0 0 0 0 0
",
    "
m0 new s0 0 : object 1 | 0 0 0 0 0 0 | 64 0 1 0 0 0 0 |
m0 new s1 0 : object 2 | 0 0 1 0 0 0 | 64 0 2 0 0 0 0 |
m0 drop s0 : ok | 7 0 0 0 0 0 | 66 0 0 0 0 0 0 |
begin 7 normal : cycle 1 | 20 0 0 0 0 0 | 80 0 0 0 0 0 1 |
w0 scan : scanned 1 | 21 0 0 0 0 0 | 81 0 1 0 0 0 0 | | 1 4 0 0 0 2 | 72 0 0 0 0 0 0
",
    "
m0 new s0 0 : object 1 | 0 0 0 0 0 0 | 64 0 1 0 0 0 0 |
m0 new s1 0 : object 2 | 0 0 1 0 0 0 | 64 0 2 0 0 0 0 |
begin 7 normal : cycle 1 | 20 0 0 0 0 0 | 80 0 0 0 0 0 1 |
w0 scan : scanned 1 | 21 0 0 0 0 0 | 81 0 1 0 0 0 0 |
w1 scan : none | 21 1 0 0 0 0 | 72 0 0 0 0 0 0 |
w0 scan : scanned 2 | 21 0 0 0 0 0 | 81 0 2 0 0 0 0 | | 1 5 1 0 5 2 | 72 0 0 0 0 0 0
",
    "
m0 new s0 0 : object 1 | 0 0 0 0 0 0 | 64 0 1 0 0 0 0 |
m0 drop s0 : ok | 7 0 0 0 0 0 | 66 0 0 0 0 0 0 |
begin 7 normal : cycle 1 | 20 0 0 0 0 0 | 80 0 0 0 0 0 1 |
endmark : refused 14 GreyLeft | 22 0 0 0 0 0 | 89 14 0 0 0 0 0 | | 1 6 0 0 0 2 | 82 0 0 0 0 1 0
",
    "
m0 new s0 0 : object 1 | 0 0 0 0 0 0 | 64 0 1 0 0 0 0 |
begin 7 normal : cycle 1 | 20 0 0 0 0 0 | 80 0 0 0 0 0 1 |
endmark : refused 14 GreyLeft | 22 0 0 0 0 0 | 89 14 0 0 0 0 0 |
w0 scan : none | 21 0 0 0 0 0 | 72 0 0 0 0 0 0 | | 1 7 1 0 3 2 | 81 0 1 0 0 0 0
",
    "
m0 new s0 0 : object 1 | 0 0 0 0 0 0 | 64 0 1 0 0 0 0 |
m0 weak s1 s0 q0 0 : object 2 | 2 0 1 0 0 0 | 64 0 2 0 0 0 0 |
m0 drop s0 : ok | 7 0 0 0 0 0 | 66 0 0 0 0 0 0 |
begin 7 normal : cycle 1 | 20 0 0 0 0 0 | 80 0 0 0 0 0 1 |
w0 scan : scanned 2 | 21 0 0 0 0 0 | 81 0 2 0 0 0 0 |
w0 scan : none | 21 0 0 0 0 0 | 72 0 0 0 0 0 0 |
endmark : doomed 2 | 22 0 0 0 0 0 | 82 0 0 0 0 2 0 | | 1 8 2 0 4 2 | 82 0 0 0 0 1 0
",
    "
m0 new s0 0 : object 1 | 0 0 0 0 0 0 | 64 0 1 0 0 0 0 |
m0 new s15 0 : object 2 | 0 0 15 0 0 0 | 64 0 2 0 0 0 0 |
begin 7 normal : cycle 1 | 20 0 0 0 0 0 | 80 0 0 0 0 0 1 |
endmark : doomed 2 | 22 0 0 0 0 0 | 82 0 0 0 0 2 0 | | 1 9 0 0 0 2 | 89 14 0 0 0 0 0
",
    "
m0 new s0 1 : object 1 | 0 0 0 0 0 1 | 64 0 1 0 0 0 0 |
m0 new s1 0 : object 2 | 0 0 1 0 0 0 | 64 0 2 0 0 0 0 |
m0 new s2 1 : object 3 | 0 0 2 0 0 1 | 64 0 3 0 0 0 0 |
m0 store s2 0 s1 : ok | 4 0 2 1 0 0 | 66 0 0 0 0 0 0 |
m0 drop s1 : ok | 7 0 1 0 0 0 | 66 0 0 0 0 0 0 |
begin 7 normal : cycle 1 | 20 0 0 0 0 0 | 80 0 0 0 0 0 1 |
w0 scan : scanned 1 | 21 0 0 0 0 0 | 81 0 1 0 0 0 0 |
m0 load s1 s2 0 : object 2 | 5 0 1 2 0 0 | 64 0 2 0 0 0 0 |
m0 store s0 0 s1 : ok | 4 0 0 1 0 0 | 66 0 0 0 0 0 0 |
m0 drop s1 : ok | 7 0 1 0 0 0 | 66 0 0 0 0 0 0 |
m0 store s2 0 s5 : ok | 4 0 2 5 0 0 | 66 0 0 0 0 0 0 |
w0 scan : scanned 3 | 21 0 0 0 0 0 | 81 0 3 0 0 0 0 |
w0 scan : none | 21 0 0 0 0 0 | 72 0 0 0 0 0 0 |
endmark : doomed 1 | 22 0 0 0 0 0 | 82 0 0 0 0 1 0 | | 1 10 0 0 0 0 | 0 0 0 0 0 0 0
",
    "
m0 new s0 0 : object 1 | 0 0 0 0 0 0 | 64 0 1 0 0 0 0 |
m0 soft s1 s0 q0 0 : object 2 | 1 0 1 0 0 0 | 64 0 2 0 0 0 0 |
m0 drop s0 : ok | 7 0 0 0 0 0 | 66 0 0 0 0 0 0 |
begin 7 normal : cycle 1 | 20 0 0 0 0 0 | 80 0 0 0 0 0 1 |
w0 scan : scanned 2 | 21 0 0 0 0 0 | 81 0 2 0 0 0 0 |
endmark : doomed 1 | 22 0 0 0 0 0 | 82 0 0 0 0 1 0 | | 1 11 2 0 4 2 | 89 14 0 0 0 0 0
",
    "
m0 new s0 0 : object 1 | 0 0 0 0 0 0 | 64 0 1 0 0 0 0 |
begin 7 normal : cycle 1 | 20 0 0 0 0 0 | 80 0 0 0 0 0 1 |
m0 weak s1 s0 q0 0 : object 2 | 2 0 1 0 0 0 | 64 0 2 0 0 0 0 |
m0 drop s0 : ok | 7 0 0 0 0 0 | 66 0 0 0 0 0 0 |
endmark : doomed 1 | 22 0 0 0 0 0 | 82 0 0 0 0 1 0 | | 1 12 0 0 0 2 | 89 14 0 0 0 0 0
",
    "
m0 new s0 0 : object 1 | 0 0 0 0 0 0 | 64 0 1 0 0 0 0 |
m0 weak s1 s0 q0 0 : object 2 | 2 0 1 0 0 0 | 64 0 2 0 0 0 0 |
m0 weak s2 s0 q0 0 : object 3 | 2 0 2 0 0 0 | 64 0 3 0 0 0 0 |
m0 drop s0 : ok | 7 0 0 0 0 0 | 66 0 0 0 0 0 0 |
begin 7 normal : cycle 1 | 20 0 0 0 0 0 | 80 0 0 0 0 0 1 |
w0 scan : scanned 3 | 21 0 0 0 0 0 | 81 0 3 0 0 0 0 |
w0 scan : scanned 2 | 21 0 0 0 0 0 | 81 0 2 0 0 0 0 |
w0 scan : none | 21 0 0 0 0 0 | 72 0 0 0 0 0 0 |
endmark : doomed 1 | 22 0 0 0 0 0 | 82 0 0 0 0 1 0 |
w0 clearnext : cleared 2 | 23 0 0 0 0 0 | 83 0 2 0 0 0 0 | | 1 13 4 0 9 2 | 83 0 3 0 0 0 0
",
    "
m0 new s0 0 : object 1 | 0 0 0 0 0 0 | 64 0 1 0 0 0 0 |
m0 weak s1 s0 q0 0 : object 2 | 2 0 1 0 0 0 | 64 0 2 0 0 0 0 |
m0 drop s0 : ok | 7 0 0 0 0 0 | 66 0 0 0 0 0 0 |
begin 7 normal : cycle 1 | 20 0 0 0 0 0 | 80 0 0 0 0 0 1 |
w0 scan : scanned 2 | 21 0 0 0 0 0 | 81 0 2 0 0 0 0 |
w0 scan : none | 21 0 0 0 0 0 | 72 0 0 0 0 0 0 |
endmark : doomed 1 | 22 0 0 0 0 0 | 82 0 0 0 0 1 0 |
w0 clearnext : kept 2 | 23 0 0 0 0 0 | 84 0 2 0 0 0 0 | | 1 14 4 0 7 2 | 83 0 2 0 0 0 0
",
    "
m0 new s0 0 : object 1 | 0 0 0 0 0 0 | 64 0 1 0 0 0 0 |
m0 weak s1 s0 q0 0 : object 2 | 2 0 1 0 0 0 | 64 0 2 0 0 0 0 |
m0 drop s0 : ok | 7 0 0 0 0 0 | 66 0 0 0 0 0 0 |
begin 7 normal : cycle 1 | 20 0 0 0 0 0 | 80 0 0 0 0 0 1 |
w0 scan : scanned 2 | 21 0 0 0 0 0 | 81 0 2 0 0 0 0 |
w0 scan : none | 21 0 0 0 0 0 | 72 0 0 0 0 0 0 |
endmark : doomed 1 | 22 0 0 0 0 0 | 82 0 0 0 0 1 0 |
w0 clearnext : none | 23 0 0 0 0 0 | 72 0 0 0 0 0 0 | | 1 15 4 0 7 2 | 83 0 2 0 0 0 0
",
    "
m0 new s0 0 : object 1 | 0 0 0 0 0 0 | 64 0 1 0 0 0 0 |
m0 weak s1 s0 q0 0 : object 2 | 2 0 1 0 0 0 | 64 0 2 0 0 0 0 |
begin 7 normal : cycle 1 | 20 0 0 0 0 0 | 80 0 0 0 0 0 1 |
w0 scan : scanned 1 | 21 0 0 0 0 0 | 81 0 1 0 0 0 0 |
w0 scan : scanned 2 | 21 0 0 0 0 0 | 81 0 2 0 0 0 0 |
endmark : doomed 0 | 22 0 0 0 0 0 | 82 0 0 0 0 0 0 |
endclear : refused 15 ClearingLeft | 24 0 0 0 0 0 | 89 15 0 0 0 0 0 |
endclear : ok | 24 0 0 0 0 0 | 66 0 0 0 0 0 0 | | 1 16 1 0 7 2 | 89 15 0 0 0 0 0
",
    "
m0 new s0 0 : object 1 | 0 0 0 0 0 0 | 64 0 1 0 0 0 0 |
begin 7 normal : cycle 1 | 20 0 0 0 0 0 | 80 0 0 0 0 0 1 |
w0 scan : scanned 1 | 21 0 0 0 0 0 | 81 0 1 0 0 0 0 |
endmark : doomed 0 | 22 0 0 0 0 0 | 82 0 0 0 0 0 0 |
endclear : refused 15 ClearingLeft | 24 0 0 0 0 0 | 89 15 0 0 0 0 0 | | 1 17 0 0 0 2 | 66 0 0 0 0 0 0
",
    "
m0 new s0 0 : object 1 | 0 0 0 0 0 0 | 64 0 1 0 0 0 0 |
m0 weak s1 s0 q0 0 : object 2 | 2 0 1 0 0 0 | 64 0 2 0 0 0 0 |
m0 drop s0 : ok | 7 0 0 0 0 0 | 66 0 0 0 0 0 0 |
begin 7 normal : cycle 1 | 20 0 0 0 0 0 | 80 0 0 0 0 0 1 |
w0 scan : scanned 2 | 21 0 0 0 0 0 | 81 0 2 0 0 0 0 |
endmark : doomed 1 | 22 0 0 0 0 0 | 82 0 0 0 0 1 0 |
w0 clearnext : cleared 2 | 23 0 0 0 0 0 | 83 0 2 0 0 0 0 |
endclear : ok | 24 0 0 0 0 0 | 66 0 0 0 0 0 0 |
w0 hand : notice 2 q0 cycle 1 w0 | 25 0 0 0 0 0 | 69 0 2 0 0 0 1 |
w0 put : added 0 | 27 0 0 0 0 0 | 73 0 0 0 0 0 0 |
m0 poll q0 : took 2 | 14 0 0 0 0 0 | 77 0 2 0 0 0 0 |
m0 release : ok | 17 0 0 0 0 0 | 66 0 0 0 0 0 0 |
m0 unhook s1 : notice 2 q0 own | 11 0 1 0 0 0 | 70 0 2 0 0 0 0 |
m0 refers s1 s0 : true | 10 0 1 0 0 0 | 67 0 0 0 0 0 0 |
w0 sweep : swept 1 | 30 0 0 0 0 0 | 86 0 0 0 0 1 0 |
m0 put : added 1 | 12 0 0 0 0 0 | 73 0 0 0 0 0 1 | | 1 18 0 0 0 2 | 74 0 0 0 0 0 0
",
    "
m0 new s0 0 : object 1 | 0 0 0 0 0 0 | 64 0 1 0 0 0 0 |
m0 weak s1 s0 q0 0 : object 2 | 2 0 1 0 0 0 | 64 0 2 0 0 0 0 |
m0 weak s2 s0 q0 0 : object 3 | 2 0 2 0 0 0 | 64 0 3 0 0 0 0 |
m0 drop s0 : ok | 7 0 0 0 0 0 | 66 0 0 0 0 0 0 |
begin 7 normal : cycle 1 | 20 0 0 0 0 0 | 80 0 0 0 0 0 1 |
w0 scan : scanned 2 | 21 0 0 0 0 0 | 81 0 2 0 0 0 0 |
w0 scan : scanned 3 | 21 0 0 0 0 0 | 81 0 3 0 0 0 0 |
endmark : doomed 1 | 22 0 0 0 0 0 | 82 0 0 0 0 1 0 |
w0 clearnext : cleared 2 | 23 0 0 0 0 0 | 83 0 2 0 0 0 0 |
w0 clearnext : cleared 3 | 23 0 0 0 0 0 | 83 0 3 0 0 0 0 |
endclear : ok | 24 0 0 0 0 0 | 66 0 0 0 0 0 0 |
w0 hands 32 : notices 2 3 q0 cycle 1 w0 | 26 0 0 0 0 32 | 71 0 0 0 0 2 1 | 2 3
w0 puts : added 0 | 28 0 0 0 0 0 | 76 0 0 0 0 1 0 | 73 0 | 1 19 0 0 0 2 | 76 0 0 0 0 2 0
",
    "
m0 close q1 : ok | 18 0 0 0 1 0 | 66 0 0 0 0 0 0 |
m1 close q0 : ok | 18 1 0 0 0 0 | 66 0 0 0 0 0 0 |
m0 poll q1 : empty | 14 0 0 0 1 0 | 79 0 0 0 0 0 0 | | 1 20 6 0 1 2 | 75 0 0 0 0 0 0
",
    "
m0 new s0 0 : object 1 | 0 0 0 0 0 0 | 64 0 1 0 0 0 0 |
select : selected 1 | 32 0 0 0 0 0 | 87 0 0 0 0 1 0 |
w0 move : moved 2 | 33 0 0 0 0 0 | 88 0 2 0 0 0 0 | | 1 21 0 0 0 2 | 72 0 0 0 0 0 0
",
];

/// Batches of a worker, of which memory was refused to one, and a poll of a batch.
pub const LEGAL_BATCHES: &'static str = "
m0 new s0 0 : object 1 | 0 0 0 0 0 0 | 64 0 1 0 0 0 0 |
m0 weak s1 s0 q0 0 : object 2 | 2 0 1 0 0 0 | 64 0 2 0 0 0 0 |
m0 weak s2 s0 q0 0 : object 3 | 2 0 2 0 0 0 | 64 0 3 0 0 0 0 |
m0 drop s0 : ok | 7 0 0 0 0 0 | 66 0 0 0 0 0 0 |
begin 7 normal : cycle 1 | 20 0 0 0 0 0 | 80 0 0 0 0 0 1 |
w0 scan : scanned 3 | 21 0 0 0 0 0 | 81 0 3 0 0 0 0 |
w0 scan : scanned 2 | 21 0 0 0 0 0 | 81 0 2 0 0 0 0 |
endmark : doomed 1 | 22 0 0 0 0 0 | 82 0 0 0 0 1 0 |
w0 clearnext : cleared 3 | 23 0 0 0 0 0 | 83 0 3 0 0 0 0 |
w0 clearnext : cleared 2 | 23 0 0 0 0 0 | 83 0 2 0 0 0 0 |
endclear : ok | 24 0 0 0 0 0 | 66 0 0 0 0 0 0 |
m0 unhook s1 : notice 2 q0 own | 11 0 1 0 0 0 | 70 0 2 0 0 0 0 |
m0 put : added 0 | 12 0 0 0 0 0 | 73 0 0 0 0 0 0 |
w0 hands 32 : notices 3 2 q0 cycle 1 w0 | 26 0 0 0 0 32 | 71 0 0 0 0 2 1 | 3 2
w0 puts : refused 3 NoMemory | 28 0 0 0 0 0 | 76 0 0 0 0 1 0 | 89 3
w0 puts : added 1, already | 28 0 0 0 0 0 | 76 0 0 0 0 2 0 | 73 1 74 0
w0 release : ok | 29 0 0 0 0 0 | 66 0 0 0 0 0 0 |
m0 polls q0 2 : took 2 3 | 15 0 0 0 0 2 | 78 0 0 0 0 2 0 | 2 3
";

/// Objects that move.
pub const LEGAL_MOVE: &'static str = "
m0 new s0 0 : object 1 | 0 0 0 0 0 0 | 64 0 1 0 0 0 0 |
select : refused 18 NoRoom | 32 0 0 0 0 0 | 89 18 0 0 0 0 0 |
select : selected 9 | 32 0 0 0 0 0 | 87 0 0 0 0 9 0 |
select : refused 12 WrongPhase | 32 0 0 0 0 0 | 89 12 0 0 0 0 0 |
w0 move : moved 1 | 33 0 0 0 0 0 | 88 0 1 0 0 0 0 |
w0 move : moved 1 | 33 0 0 0 0 0 | 88 0 1 0 0 0 0 |
endmove : refused 17 MovesLeft | 34 0 0 0 0 0 | 89 17 0 0 0 0 0 |
begin 7 normal : refused 12 WrongPhase | 20 0 0 0 0 0 | 89 12 0 0 0 0 0 |
endmove : ok | 34 0 0 0 0 0 | 66 0 0 0 0 0 0 |
select : refused 12 WrongPhase | 32 0 0 0 0 0 | 89 12 0 0 0 0 0 |
";

/// A collector that keeps more.
pub const KEPT_MORE: &'static str = "
m0 new s0 0 : object 1 | 0 0 0 0 0 0 | 64 0 1 0 0 0 0 |
m0 new s1 0 : object 2 | 0 0 1 0 0 0 | 64 0 2 0 0 0 0 |
m0 drop s0 : ok | 7 0 0 0 0 0 | 66 0 0 0 0 0 0 |
begin 7 normal : cycle 1 | 20 0 0 0 0 0 | 80 0 0 0 0 0 1 |
w0 scan : scanned 1 | 21 0 0 0 0 0 | 81 0 1 0 0 0 0 |
w0 scan : scanned 2 | 21 0 0 0 0 0 | 81 0 2 0 0 0 0 |
endmark : doomed 0 | 22 0 0 0 0 0 | 82 0 0 0 0 0 0 |
";

/// One that is free to clear soft references.
pub const SOFT_FREE: &'static str = "
m0 new s0 0 : object 1 | 0 0 0 0 0 0 | 64 0 1 0 0 0 0 |
m0 soft s1 s0 q0 0 : object 2 | 1 0 1 0 0 0 | 64 0 2 0 0 0 0 |
m0 drop s0 : ok | 7 0 0 0 0 0 | 66 0 0 0 0 0 0 |
begin 7 normal : cycle 1 | 20 0 0 0 0 0 | 80 0 0 0 0 0 1 |
w0 scan : scanned 2 | 21 0 0 0 0 0 | 81 0 2 0 0 0 0 |
endmark : doomed 1 | 22 0 0 0 0 0 | 82 0 0 0 0 1 0 |
w0 clearnext : cleared 2 | 23 0 0 0 0 0 | 83 0 2 0 0 0 0 |
";

/// One whose queues give the last first.
pub const LAST_FIRST: &'static str = "
m0 new s0 0 : object 1 | 0 0 0 0 0 0 | 64 0 1 0 0 0 0 |
m0 weak s1 s0 q0 0 : object 2 | 2 0 1 0 0 0 | 64 0 2 0 0 0 0 |
m0 weak s2 s0 q0 0 : object 3 | 2 0 2 0 0 0 | 64 0 3 0 0 0 0 |
m0 unhook s1 : notice 2 q0 own | 11 0 1 0 0 0 | 70 0 2 0 0 0 0 |
m0 put : added 0 | 12 0 0 0 0 0 | 73 0 0 0 0 0 0 |
m0 unhook s2 : notice 3 q0 own | 11 0 2 0 0 0 | 70 0 3 0 0 0 0 |
m0 put : added 1 | 12 0 0 0 0 0 | 73 0 0 0 0 0 1 |
m0 poll q0 : took 2 | 14 0 0 0 0 0 | 77 0 2 0 0 0 0 | | 1 20 0 0 0 2 | 77 0 3 0 0 0 0
";

/// One whose queues give any.
pub const ANY_ORDER: &'static str = "
m0 new s0 0 : object 1 | 0 0 0 0 0 0 | 64 0 1 0 0 0 0 |
m0 weak s1 s0 q0 0 : object 2 | 2 0 1 0 0 0 | 64 0 2 0 0 0 0 |
m0 weak s2 s0 q0 0 : object 3 | 2 0 2 0 0 0 | 64 0 3 0 0 0 0 |
m0 unhook s1 : notice 2 q0 own | 11 0 1 0 0 0 | 70 0 2 0 0 0 0 |
m0 put : added 0 | 12 0 0 0 0 0 | 73 0 0 0 0 0 0 |
m0 unhook s2 : notice 3 q0 own | 11 0 2 0 0 0 | 70 0 3 0 0 0 0 |
m0 put : added 1 | 12 0 0 0 0 0 | 73 0 0 0 0 0 1 |
m0 poll q0 : took 4 | 14 0 0 0 0 0 | 77 0 4 0 0 0 0 | | 1 20 0 0 0 2 | 77 0 2 0 0 0 0
";
