//! What a queue gives, one notice after the other.

ghost use Rattle.std.specs.Prelude.{◌≡◌};
ghost use Rattle.std.specs.Iterator.{at_most};
ghost use Rattle.std.specs.Sync.Forever.{forever_left};
ghost use Rattle.ref_share.specs.QueueSeats.{queue_view};
ghost use Rattle.ref_share.specs.Users.{GivesWaiting, GivesStanding, IsStillTheUser, notice_of_poll};

use crate::{Polled, QueueUser, ShareFault};
use ref_clear::Notice;
use std::alloc::{Allocator, Global};
use std::sync::{Forever, Wait};

/// The notices of a queue as they come: it waits for each, as `remove_wait`, and ends once the queue is closed and
/// nothing stands, or no turn is left.
#[derive(Drop)]
pub struct Notices<'q, 'a, R: Wait, A: Allocator + Copy = Global> {
    user: &'q mut QueueUser<'a, A>,
    rt: &'q R,
    rounds: Forever<'q, R>,
}

/// The notices that stand in a queue: it ends as soon as a poll finds none, or no turn is left. Each poll waits for its
/// turn.
#[derive(Drop)]
pub struct Standing<'q, 'a, R: Wait, A: Allocator + Copy = Global> {
    user: &'q mut QueueUser<'a, A>,
    rt: &'q R,
    rounds: Forever<'q, R>,
}

impl<'a, A: Allocator + Copy> QueueUser<'a, A> {
    /// The notices as they come, until the queue is closed. Each must be spent: `into_hold` gives its hold, and
    /// `HeapUser::give_back` takes that.
    pub fn notices<'q, R: Wait>(&'q mut self, rt: &'q R) -> Notices<'q, 'a, R, A>
        ensures user { result.user.now ≡ self.old }
        ensures same_reference { result.user.ghost_name ≡ self.entry.ghost_name }
    {
        Notices {
            user: self,
            rt,
            rounds: rt.forever(),
        }
    }

    /// The notices that stand now. Each must be spent, as those of `notices`.
    pub fn standing<'q, R: Wait>(&'q mut self, rt: &'q R) -> Standing<'q, 'a, R, A>
        ensures user { result.user.now ≡ self.old }
        ensures same_reference { result.user.ghost_name ≡ self.entry.ghost_name }
    {
        Standing {
            user: self,
            rt,
            rounds: rt.forever(),
        }
    }
}

impl<'q, 'a, R: Wait, A: Allocator + Copy> Iterator for Notices<'q, 'a, R, A> {
    type Item = Notice;

    ghost next_gives = { λ a given b. IsStillTheUser a.user b.user
        × GivesWaiting (queue_view a.user.now.seat) given (queue_view b.user.now.seat) };

    ghost remaining = { λ s. at_most (forever_left s.rounds) };

    fn next(&mut self) -> Option<Notice> {
        self.rounds.next();
        taken(self.user.remove_wait(self.rt))
    }
}

impl<'q, 'a, R: Wait, A: Allocator + Copy> Iterator for Standing<'q, 'a, R, A> {
    type Item = Notice;

    ghost next_gives = { λ a given b. IsStillTheUser a.user b.user
        × GivesStanding (queue_view a.user.now.seat) given (queue_view b.user.now.seat) };

    ghost remaining = { λ s. at_most (forever_left s.rounds) };

    fn next(&mut self) -> Option<Notice> {
        self.rounds.next();
        let answer = self.user.poll(self.rt)?;
        taken(answer)
    }
}

// The notice that was taken, if one was.
fn taken(answer: Result<Polled, ShareFault>) -> Option<Notice>
    ensures { result ≡ notice_of_poll answer }
{
    match answer {
        Ok(Polled::Took(notice)) => Some(notice),
        Ok(Polled::Empty | Polled::Closed | Polled::TimedOut) => None,
        Err(fault) => {
            let _ = fault.give_up();
            None
        }
    }
}
