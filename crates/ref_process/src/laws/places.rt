//! Where notices are, along each run of a processor with its queues, which are there all along. That a call which puts
//! a notice in or spends it has it from the program's hand is the definition's: the type can't be copied, and keeps it.

ghost use Rattle.std.specs.Prelude.{◌≡◌, ◌≤◌, ◌+◌, List};
ghost use Rattle.ref_process.specs.NoticePlaces.{Office, OfficeRow, IsOfficeRun, crew_rows, times_placed, times_spent};
ghost use Rattle.ref_process.specs.RowTallies.{times_told};
ghost use Rattle.ref_process.specs.declared.key.Key.{Key};

/// Of each key: the notices that were spent, are in hand or stand in a queue are those that were there at first and
/// those that `enqueue` and `hand` gave since. So what stands in a queue or was taken was given, and nothing is lost.
// promise: NoticeQueue::put, NoticeQueue::poll: each notice that stands or was taken was given by a processor
// promise: Processor::hand, Processor::enqueue, Processor::spend: each notice that was given is in one place
pub fn each_notice_that_was_given_is_in_one_place()
    ensures { (o : Office) (rows : List OfficeRow) (e : Office) → IsOfficeRun o rows e → (k : Key)
        → times_spent k rows + times_placed k e ≡ times_placed k o + times_told k (crew_rows rows) }
{}

/// Where no notice of a reference was there at first, there is one at most from then on: spent, in hand, or in one
/// queue, whatever the marker answers.
// promise: NoticeQueue::put, NoticeQueue::poll: no reference has notices in two queues
pub fn a_reference_has_a_notice_in_one_place_at_most()
    ensures { (o : Office) (rows : List OfficeRow) (e : Office) → IsOfficeRun o rows e → (k : Key)
        → times_placed k o ≡ 0 → times_spent k rows + times_placed k e ≤ 1 }
{}
