//! What the definitions say together, beside any code. Of every legal trace: `queues` and `notices` say what programs
//! learn, `cycles` what a collector does, and `traces` how its state stands to the rows; `paths` is about graphs alone.

pub mod cycles;
pub mod notices;
pub mod paths;
pub mod queues;
pub mod traces;
