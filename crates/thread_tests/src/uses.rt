//! What callers can prove of what they are answered, from the public contracts alone.

mod cleaners;
mod deliveries;
mod heaps;
mod jobs;
mod queued_cleaners;
mod queues;
mod turns;
