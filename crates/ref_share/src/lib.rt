//! A heap and its queues for running threads. Each is one value behind a turn of its own: a call of any thread is one
//! step of it, and stands once in the one legal history of that value. So what is proved of lists of steps holds of
//! what threads do, turn by turn; and a thread that polls a queue never waits for the heap.
//!
//! `heap_machine`, `queue_machine` and `clean_machine` say what one step is, `shared` is such a machine behind a turn,
//! with its seats, and `shared_heap`, `shared_queue` and `shared_cleaner` are that at each of the three. `heap_calls`
//! has the heap's calls by what they answer, and `delivery` carries a notice from the heap to its queue.
#![tactic(auto)]

mod answers;
mod apart;
mod bell;
mod clean_loop;
mod clean_machine;
mod clean_user;
mod cleaned_heap;
mod cleaning;
mod collector;
mod cycles;
mod delivery;
mod endings;
mod heap_calls;
mod heap_machine;
mod heap_user;
pub mod laws;
mod notices;
mod one_queue;
mod queue_machine;
mod queue_user;
mod queue_users;
mod queued_cleaner;
mod queues;
mod room;
mod shared;
mod shared_cleaner;
mod shared_heap;
mod shared_queue;
mod task;
mod waiting;

pub use answers::{Cleanable, Cleaned, Delivery, Polled, ShareFault};
pub use clean_loop::Gate;
pub use clean_machine::{CleanMachine, CleanReply, CleanStep};
pub use clean_user::CleanUser;
pub use cleaned_heap::CleanedHeap;
pub use collector::{Collected, Collector};
pub use cycles::cycle;
pub use delivery::{deliver_all, deliver_batch, deliver_one, enqueue};
pub use endings::{end_batch, end_queue, run_jobs_left, run_tasks_left};
pub use heap_machine::HeapMachine;
pub use heap_user::HeapUser;
pub use notices::{Notices, Standing};
pub use one_queue::{cycle_one, deliver_one_to, enqueue_to};
pub use queue_machine::{QueueAnswer, QueueCall, QueueMachine, QueueReply, QueueStep};
pub use queue_user::QueueUser;
pub use queue_users::QueueUsers;
pub use queued_cleaner::{QueuedCleaner, QueuedSeat};
pub use queues::Queues;
pub use room::make_or_collect;
pub use shared::{SeatFor, Shared};
pub use shared_cleaner::{CleanSeat, SharedCleaner};
pub use shared_heap::{HeapFrame, HeapSeat, SharedHeap};
pub use shared_queue::{QueueFrame, QueueSeat, SharedQueue};
pub use task::{Numbered, Task};
pub use waiting::{MOST_POLLS, Stop};
