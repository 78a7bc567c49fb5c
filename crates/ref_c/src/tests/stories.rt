//! Worked traces, in numbers. A line is a row: the step and its reply as in a trace; the step's kind, by, a, b, c and
//! n; the numbers of the reply; and those that it lists.

/// Steps of mutators: each kind, done and refused.
pub const STEPS: &'static str = "
m1 new s0 2 : object 1 | 0 1 0 0 0 2 | 64 0 1 0 0 0 0 |
m1 new s1 0 : object 2 | 0 1 1 0 0 0 | 64 0 2 0 0 0 0 |
m1 store s0 1 s1 : ok | 4 1 0 1 0 1 | 66 0 0 0 0 0 0 |
m1 load s2 s0 1 : object 2 | 5 1 2 0 0 1 | 64 0 2 0 0 0 0 |
m1 load s3 s0 0 : null | 5 1 3 0 0 0 | 65 0 0 0 0 0 0 |
m1 copy s4 s0 : object 1 | 6 1 4 0 0 0 | 64 0 1 0 0 0 0 |
m1 copy s5 s9 : null | 6 1 5 9 0 0 | 65 0 0 0 0 0 0 |
m1 soft s6 s0 q1 0 : object 3 | 1 1 6 0 1 0 | 64 0 3 0 0 0 0 |
m1 weak s7 s1 q1 1 : object 4 | 2 1 7 1 1 1 | 64 0 4 0 0 0 0 |
m0 new s0 0 : object 5 | 0 0 0 0 0 0 | 64 0 5 0 0 0 0 |
m0 phantom s1 s0 q0 3 : object 6 | 3 0 1 0 0 3 | 64 0 6 0 0 0 0 |
m1 soft s8 s0 - 0 : object 7 | 35 1 8 0 0 0 | 64 0 7 0 0 0 0 |
m1 weak s9 s1 - 0 : object 8 | 36 1 9 1 0 0 | 64 0 8 0 0 0 0 |
m1 phantom s10 s0 - 4 : object 9 | 37 1 10 0 0 4 | 64 0 9 0 0 0 0 |
m1 get s11 s7 : object 2 | 8 1 11 7 0 0 | 64 0 2 0 0 0 0 |
m1 refers s7 s1 : true | 10 1 7 1 0 0 | 67 0 0 0 0 0 0 |
m1 refers s7 s0 : false | 10 1 7 0 0 0 | 68 0 0 0 0 0 0 |
m1 clear s9 : ok | 9 1 9 0 0 0 | 66 0 0 0 0 0 0 |
m1 get s11 s9 : null | 8 1 11 9 0 0 | 65 0 0 0 0 0 0 |
m1 drop s11 : ok | 7 1 11 0 0 0 | 66 0 0 0 0 0 0 |
m1 store s0 2 s1 : refused 7 | 4 1 0 1 0 2 | 89 7 0 0 0 0 0 |
m1 load s2 s12 0 : refused 6 | 5 1 2 12 0 0 | 89 6 0 0 0 0 0 |
m1 get s2 s0 : refused 8 | 8 1 2 0 0 0 | 89 8 0 0 0 0 0 |
m2 copy s0 s0 : refused 9 | 6 2 0 0 0 0 | 89 9 0 0 0 0 0 |
m1 weak s2 s0 q2 0 : refused 10 | 2 1 2 0 2 0 | 89 10 0 0 0 0 0 |
m1 new s2 9 : refused 7 | 0 1 2 0 0 9 | 89 7 0 0 0 0 0 |
";

/// What the program enqueues itself: notices, hands and queues, one by one.
pub const HANDS: &'static str = "
m0 new s0 0 : object 1 | 0 0 0 0 0 0 | 64 0 1 0 0 0 0 |
m0 weak s1 s0 q1 0 : object 2 | 2 0 1 0 1 0 | 64 0 2 0 0 0 0 |
m0 weak s2 s0 - 0 : object 3 | 36 0 2 0 0 0 | 64 0 3 0 0 0 0 |
m1 new s0 0 : object 4 | 0 1 0 0 0 0 | 64 0 4 0 0 0 0 |
m1 phantom s1 s0 q0 0 : object 5 | 3 1 1 0 0 0 | 64 0 5 0 0 0 0 |
m0 put : refused 24 | 12 0 0 0 0 0 | 89 24 0 0 0 0 0 |
m0 unhook s2 : none | 11 0 2 0 0 0 | 72 0 0 0 0 0 0 |
m0 unhook s1 : notice 2 q1 own | 11 0 1 0 0 0 | 70 0 2 1 0 0 0 |
m0 unhook s1 : refused 23 | 11 0 1 0 0 0 | 89 23 0 0 0 0 0 |
m1 unhook s1 : notice 5 q0 own | 11 1 1 0 0 0 | 70 0 5 0 0 0 0 |
m0 put : added 0 | 12 0 0 0 0 0 | 73 0 0 0 0 0 0 |
m1 put : added 0 | 12 1 0 0 0 0 | 73 0 0 0 0 0 0 |
m0 unhook s1 : notice 2 q1 own | 11 0 1 0 0 0 | 70 0 2 1 0 0 0 |
m0 put : already | 12 0 0 0 0 0 | 74 0 0 0 0 0 0 |
m0 release : ok | 17 0 0 0 0 0 | 66 0 0 0 0 0 0 |
m0 release : refused 24 | 17 0 0 0 0 0 | 89 24 0 0 0 0 0 |
m1 poll q1 : took 2 | 14 1 0 0 1 0 | 77 0 2 0 0 0 0 |
m1 adopt s2 : object 2 | 16 1 2 0 0 0 | 64 0 2 0 0 0 0 |
m1 poll q1 : empty | 14 1 0 0 1 0 | 79 0 0 0 0 0 0 |
m1 close q1 : ok | 18 1 0 0 1 0 | 66 0 0 0 0 0 0 |
m1 close q1 : closed | 18 1 0 0 1 0 | 75 0 0 0 0 0 0 |
m1 poll q1 : closed | 14 1 0 0 1 0 | 75 0 0 0 0 0 0 |
m0 unhook s1 : notice 2 q1 own | 11 0 1 0 0 0 | 70 0 2 1 0 0 0 |
m0 put : already | 12 0 0 0 0 0 | 74 0 0 0 0 0 0 |
m0 poll q2 : refused 10 | 14 0 0 0 2 0 | 89 10 0 0 0 0 0 |
m0 weak s3 s0 q1 0 : object 6 | 2 0 3 0 1 0 | 64 0 6 0 0 0 0 |
m0 release : ok | 17 0 0 0 0 0 | 66 0 0 0 0 0 0 |
m0 unhook s3 : notice 6 q1 own | 11 0 3 0 0 0 | 70 0 6 1 0 0 0 |
m0 put : closed | 12 0 0 0 0 0 | 75 0 0 0 0 0 0 |
m0 polls q0 1 : refused 23 | 15 0 0 0 0 1 | 89 23 0 0 0 0 0 |
";

/// Cycles of two workers: references cleared, kept and skipped, and notices handed on one by one.
pub const CYCLES: &'static str = "
m0 new s0 0 : object 1 | 0 0 0 0 0 0 | 64 0 1 0 0 0 0 |
m0 weak s1 s0 q1 0 : object 2 | 2 0 1 0 1 0 | 64 0 2 0 0 0 0 |
m0 new s0 0 : object 3 | 0 0 0 0 0 0 | 64 0 3 0 0 0 0 |
m0 weak s2 s0 q0 0 : object 4 | 2 0 2 0 0 0 | 64 0 4 0 0 0 0 |
m0 new s0 0 : object 5 | 0 0 0 0 0 0 | 64 0 5 0 0 0 0 |
m0 weak s3 s0 q1 0 : object 6 | 2 0 3 0 1 0 | 64 0 6 0 0 0 0 |
m0 weak s4 s0 - 0 : object 7 | 36 0 4 0 0 0 | 64 0 7 0 0 0 0 |
m0 drop s0 : ok | 7 0 0 0 0 0 | 66 0 0 0 0 0 0 |
m0 new s5 0 : object 8 | 0 0 5 0 0 0 | 64 0 8 0 0 0 0 |
m0 weak s6 s5 - 0 : object 9 | 36 0 6 5 0 0 | 64 0 9 0 0 0 0 |
w0 scan : refused 12 | 21 0 0 0 0 0 | 89 12 0 0 0 0 0 |
begin 7 normal : cycle 1 | 20 0 0 0 0 0 | 80 0 0 0 0 0 1 |
begin 7 urgent : refused 12 | 20 0 0 0 0 1 | 89 12 0 0 0 0 0 |
w0 scan : scanned 2 | 21 0 0 0 0 0 | 81 0 2 0 0 0 0 |
w1 scan : scanned 4 | 21 1 0 0 0 0 | 81 0 4 0 0 0 0 |
endmark : refused 14 | 22 0 0 0 0 0 | 89 14 0 0 0 0 0 |
w0 scan : scanned 6 | 21 0 0 0 0 0 | 81 0 6 0 0 0 0 |
w0 scan : scanned 7 | 21 0 0 0 0 0 | 81 0 7 0 0 0 0 |
w0 scan : scanned 8 | 21 0 0 0 0 0 | 81 0 8 0 0 0 0 |
w0 scan : scanned 9 | 21 0 0 0 0 0 | 81 0 9 0 0 0 0 |
w1 scan : none | 21 1 0 0 0 0 | 72 0 0 0 0 0 0 |
m0 clear s4 : ok | 9 0 4 0 0 0 | 66 0 0 0 0 0 0 |
endmark : doomed 3 | 22 0 0 0 0 0 | 82 0 0 0 0 3 0 |
w1 clearnext : cleared 4 | 23 1 0 0 0 0 | 83 0 4 0 0 0 0 |
w0 clearnext : cleared 2 | 23 0 0 0 0 0 | 83 0 2 0 0 0 0 |
endclear : refused 15 | 24 0 0 0 0 0 | 89 15 0 0 0 0 0 |
w0 clearnext : cleared 6 | 23 0 0 0 0 0 | 83 0 6 0 0 0 0 |
w0 clearnext : skipped 7 | 23 0 0 0 0 0 | 85 0 7 0 0 0 0 |
w0 clearnext : none | 23 0 0 0 0 0 | 72 0 0 0 0 0 0 |
w1 clearnext : none | 23 1 0 0 0 0 | 72 0 0 0 0 0 0 |
endclear : ok | 24 0 0 0 0 0 | 66 0 0 0 0 0 0 |
w0 hand : notice 2 q1 cycle 1 w0 | 25 0 0 0 0 0 | 69 0 2 1 0 0 1 |
w1 hand : notice 4 q0 cycle 1 w1 | 25 1 0 0 0 0 | 69 0 4 0 1 0 1 |
w0 hand : refused 23 | 25 0 0 0 0 0 | 89 23 0 0 0 0 0 |
w0 put : added 0 | 27 0 0 0 0 0 | 73 0 0 0 0 0 0 |
w0 hand : notice 6 q1 cycle 1 w0 | 25 0 0 0 0 0 | 69 0 6 1 0 0 1 |
w0 release : ok | 29 0 0 0 0 0 | 66 0 0 0 0 0 0 |
w1 put : added 0 | 27 1 0 0 0 0 | 73 0 0 0 0 0 0 |
w0 hand : none | 25 0 0 0 0 0 | 72 0 0 0 0 0 0 |
endsweep : refused 16 | 31 0 0 0 0 0 | 89 16 0 0 0 0 0 |
w1 sweep : swept 3 | 30 1 0 0 0 0 | 86 0 0 0 0 3 0 |
w1 sweep : none | 30 1 0 0 0 0 | 72 0 0 0 0 0 0 |
endsweep : ok | 31 0 0 0 0 0 | 66 0 0 0 0 0 0 |
select : refused 18 | 32 0 0 0 0 0 | 89 18 0 0 0 0 0 |
endmove : refused 12 | 34 0 0 0 0 0 | 89 12 0 0 0 0 0 |
";

/// Three deaths, of which two are handed on, put in and polled at once.
pub const BATCHES: &'static str = "
m0 new s0 0 : object 1 | 0 0 0 0 0 0 | 64 0 1 0 0 0 0 |
m0 weak s1 s0 q1 0 : object 2 | 2 0 1 0 1 0 | 64 0 2 0 0 0 0 |
m0 new s0 0 : object 3 | 0 0 0 0 0 0 | 64 0 3 0 0 0 0 |
m0 weak s2 s0 q0 0 : object 4 | 2 0 2 0 0 0 | 64 0 4 0 0 0 0 |
m0 new s0 0 : object 5 | 0 0 0 0 0 0 | 64 0 5 0 0 0 0 |
m0 weak s3 s0 q1 0 : object 6 | 2 0 3 0 1 0 | 64 0 6 0 0 0 0 |
m0 drop s0 : ok | 7 0 0 0 0 0 | 66 0 0 0 0 0 0 |
begin 7 urgent : cycle 1 | 20 0 0 0 0 1 | 80 0 0 0 0 0 1 |
w0 scan : scanned 2 | 21 0 0 0 0 0 | 81 0 2 0 0 0 0 |
w1 scan : scanned 4 | 21 1 0 0 0 0 | 81 0 4 0 0 0 0 |
w0 scan : scanned 6 | 21 0 0 0 0 0 | 81 0 6 0 0 0 0 |
endmark : doomed 3 | 22 0 0 0 0 0 | 82 0 0 0 0 3 0 |
w1 clearnext : cleared 4 | 23 1 0 0 0 0 | 83 0 4 0 0 0 0 |
w0 clearnext : cleared 2 | 23 0 0 0 0 0 | 83 0 2 0 0 0 0 |
w0 clearnext : cleared 6 | 23 0 0 0 0 0 | 83 0 6 0 0 0 0 |
endclear : ok | 24 0 0 0 0 0 | 66 0 0 0 0 0 0 |
w0 hands 0 : refused 1 | 26 0 0 0 0 0 | 89 1 0 0 0 0 0 |
w0 hands 32 : notices 2 6 q1 cycle 1 w0 | 26 0 0 0 0 32 | 71 0 0 1 0 2 1 | 2 6
w1 hands 32 : notices 4 q0 cycle 1 w1 | 26 1 0 0 0 32 | 71 0 0 0 1 1 1 | 4
w0 puts : added 0, added 1 | 28 0 0 0 0 0 | 76 0 0 0 0 2 0 | 73 0 73 1
w1 puts : added 0 | 28 1 0 0 0 0 | 76 0 0 0 0 1 0 | 73 0
w1 puts : refused 24 | 28 1 0 0 0 0 | 89 24 0 0 0 0 0 |
m1 polls q1 33 : refused 1 | 15 1 0 0 1 33 | 89 1 0 0 0 0 0 |
m1 polls q1 32 : took 2 6 | 15 1 0 0 1 32 | 78 0 0 0 0 2 0 | 2 6
m1 puts : already, already | 13 1 0 0 0 0 | 76 0 0 0 0 2 0 | 74 0 74 0
m0 unhook s1 : notice 2 q1 own | 11 0 1 0 0 0 | 70 0 2 1 0 0 0 |
m0 puts : already | 13 0 0 0 0 0 | 76 0 0 0 0 1 0 | 74 0
m0 weak s4 s1 q1 0 : object 7 | 2 0 4 1 1 0 | 64 0 7 0 0 0 0 |
m0 release : ok | 17 0 0 0 0 0 | 66 0 0 0 0 0 0 |
m1 close q1 : ok | 18 1 0 0 1 0 | 66 0 0 0 0 0 0 |
m0 unhook s4 : notice 7 q1 own | 11 0 4 0 0 0 | 70 0 7 1 0 0 0 |
m0 puts : closed | 13 0 0 0 0 0 | 76 0 0 0 0 1 0 | 75 0
m0 polls q1 2 : refused 23 | 15 0 0 0 1 2 | 89 23 0 0 0 0 0 |
";

/// The last rows of the trace `moving_objects`.
pub const MOVES: &'static str = "
m0 store s0 0 s1 : ok | 4 0 0 1 0 0 | 66 0 0 0 0 0 0 |
begin 7 normal : cycle 1 | 20 0 0 0 0 0 | 80 0 0 0 0 0 1 |
w0 scan : scanned 1 | 21 0 0 0 0 0 | 81 0 1 0 0 0 0 |
w0 scan : scanned 65 | 21 0 0 0 0 0 | 81 0 65 0 0 0 0 |
w0 scan : scanned 2 | 21 0 0 0 0 0 | 81 0 2 0 0 0 0 |
endmark : doomed 62 | 22 0 0 0 0 0 | 82 0 0 0 0 62 0 |
endclear : ok | 24 0 0 0 0 0 | 66 0 0 0 0 0 0 |
w1 sweep : swept 62 | 30 1 0 0 0 0 | 86 0 0 0 0 62 0 |
endsweep : ok | 31 0 0 0 0 0 | 66 0 0 0 0 0 0 |
select : selected 3 | 32 0 0 0 0 0 | 87 0 0 0 0 3 0 |
m0 load s3 s0 0 : object 65 | 5 0 3 0 0 0 | 64 0 65 0 0 0 0 |
endmove : refused 17 MovesLeft | 34 0 0 0 0 0 | 89 17 0 0 0 0 0 |
w0 move : moved 1 | 33 0 0 0 0 0 | 88 0 1 0 0 0 0 |
w1 move : moved 2 | 33 1 0 0 0 0 | 88 0 2 0 0 0 0 |
w1 move : none | 33 1 0 0 0 0 | 72 0 0 0 0 0 0 |
endmove : ok | 34 0 0 0 0 0 | 66 0 0 0 0 0 0 |
";

/// The kinds, and the step of each whose by is 1, a 2, b 3, c 4, n 6 and clock 7, as a script spells it. 19 and 38 are
/// none.
pub const KINDS: &'static str = "
0 | m1 new s2 6
1 | m1 soft s2 s3 q4 6
2 | m1 weak s2 s3 q4 6
3 | m1 phantom s2 s3 q4 6
4 | m1 store s2 6 s3
5 | m1 load s2 s3 6
6 | m1 copy s2 s3
7 | m1 drop s2
8 | m1 get s2 s3
9 | m1 clear s2
10 | m1 refers s2 s3
11 | m1 unhook s2
12 | m1 put
13 | m1 puts
14 | m1 poll q4
15 | m1 polls q4 6
16 | m1 adopt s2
17 | m1 release
18 | m1 close q4
19 |
20 | begin 7 urgent
21 | w1 scan
22 | endmark
23 | w1 clearnext
24 | endclear
25 | w1 hand
26 | w1 hands 6
27 | w1 put
28 | w1 puts
29 | w1 release
30 | w1 sweep
31 | endsweep
32 | select
33 | w1 move
34 | endmove
35 | m1 soft s2 s3 - 6
36 | m1 weak s2 s3 - 6
37 | m1 phantom s2 s3 - 6
38 |
";

/// The kinds of replies, and one of each as a trace spells it.
pub const REPLIES: &'static str = "
64 | object 1
65 | null
66 | ok
67 | true
68 | false
69 | notice 2 q1 cycle 1 w1
70 | notice 2 q1 own
71 | notices 2 6 q1 cycle 1 w1
72 | none
73 | added 0
74 | already
75 | closed
76 | already, added 1
77 | took 2
78 | took 2 6
79 | empty
80 | cycle 1
81 | scanned 2
82 | doomed 1
83 | cleared 2
84 | kept 2
85 | skipped 2
86 | swept 1
87 | selected 3
88 | moved 1
89 | refused 9 NoSuchActor
";

/// The rules, and what each says.
pub const RULES: &'static str = "
1 | this step has one answer here
2 | this step is refused here, and this is the first fault that applies
3 | this step has other answers
4 | a scan takes an object that was made before the cycle, that a kept path led to in this mark, \
and that wasn't scanned in it
5 | that no object is left to scan holds till a load or a get answers an object
6 | that an object is left to scan is said only where one is
7 | that an object is left to scan holds till one is scanned, loaded or got
8 | a mark's end dooms all that was made before the cycle and not scanned in it
9 | no root is doomed: no slot, no notice in a hand or a queue, none that is pending
10 | no field of what lives on holds what is doomed
11 | a soft reference within its span keeps its referent, unless the cycle is urgent
12 | a reference that a mark's end clears was scanned by a worker in this cycle
13 | a worker looks at references that it scanned in this cycle, in that order, and passes none \
that the mark's end cleared
14 | a look answers cleared of what this mark's end cleared, else kept with a referent and skipped without
15 | each reference that the mark's end cleared is looked at before clearing ends
16 | that a reference is left to look at holds till one is looked at
17 | that a reference is left to look at is said only where one was scanned and not looked at
18 | a notice is put in once, at the next position, into an open queue, and only want of memory refuses it
19 | a batch tells of each notice of the hand, up to the first for which memory is refused
20 | a poll takes what stands next in its queue, as many as asked for or all, and nothing only \
where none stands
21 | a move answers an object that is there
";

/// What earlier rows settle, as the judge prints it.
pub const SETTLED: &'static str = "
1 | said so
2 | began the cycle
3 | began the phase
4 | ended the mark
5 | doomed object 1
6 | closed the queue
";
