//! What the help of each command says last.

pub const PROGRAM: &str = "\
An example, at the top of the repository:

  refrun run < examples/death_reported_after_a_cycle.script

docs/FORMATS.md has every step of a script, every reply and every fault, and the
lines of a graph.

Exit status: 0 done; 2 a wrong command line; 3 a fault of the text, or reading
or writing failed; 4 a check of stress failed, or a row isn't legal; 5 no memory.";

pub const RUN: &str = "\
An example, at the top of the repository:

  refrun run < examples/death_reported_after_a_cycle.script

docs/FORMATS.md has every step, every reply and every fault.

Exit status: 0 done; 2 a wrong command line; 3 a fault of the script, or reading
or writing failed; 5 no memory.";

pub const STRENGTH: &str = "\
An example, at the top of the repository:

  refrun strength < examples/strengths_of_a_graph.graph

docs/FORMATS.md has every line of a graph and every fault.

Exit status: 0 done; 2 a wrong command line; 3 a fault of the graph, or reading
or writing failed; 5 no memory.";

pub const RANDOM: &str = "\
An example, at the top of the repository:

  refrun random 7 400 | refrun run

The same words print the same script on every machine. Its steps are those that
a world mostly does, with some that it refuses. --with says what it has besides
the plain ones:

  moves    select, move, endmove
  batches  hands, puts, polls
  jobs     job, run
  soft     soft references, a clock that changes, urgent cycles, version 2
  hide     steps in a row that hide what lives behind what was scanned, let go
           the last root in a mark, tell a death twice, or fill the heap

Exit status: 0 done; 2 a wrong command line; 3 writing failed; 5 no memory.";

pub const CHECK: &str = "\
An example, at the top of the repository:

  refrun check < examples/read_after_death.log

and of a trace without a line of its configuration:

  refrun run < SCRIPT | refrun check --config 1,1,1,8,10

It says that the trace is legal, or names the first row that no right collector
can have given behind the rows before it, the rule that the row breaks and, as far
as these are known, an answer that is legal there and the earlier row that settled
it. A line `names any` behind the profile lets objects have names, as addresses.

docs/FORMATS.md has the lines of a trace, the profiles, the rules and every fault.

Exit status: 0 legal; 2 a wrong command line; 3 a fault of the trace, or reading
or writing failed; 4 a row isn't legal; 5 no memory.";

pub const STRESS: &str = "\
An example:

  refrun stress --mutators 4 --workers 4 --pollers 4 --rounds 10000

With --seconds alone the rounds go on until the time is over, and with --rounds
as well until the one or the other ends them.

Each mutator keeps some of its references to the end, and each of them must be
reported, once.

Where a check fails, standard error says which poller and which numbers show it.

Exit status: 0 each check passed; 2 a wrong command line; 3 writing failed;
4 a check failed; 5 no memory.";
