//! What callers can prove of the answers that they get, from the public contracts alone: each function here is such a
//! caller, and its own contract says what it sees.

mod clean_tables;
mod graphs;
mod marking;
mod objects;
mod queues;
mod tables;
mod values;
mod worlds;
