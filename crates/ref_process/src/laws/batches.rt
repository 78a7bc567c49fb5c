//! What holds of handing on several references at once.

ghost use Rattle.std.specs.Prelude.{◌<◌, ℕ, List, length};
ghost use Rattle.ref_process.specs.DeskRows.{Crew, lists_at};
ghost use Rattle.ref_process.specs.HandBatches.{handed_batch, AreHandedOn};
ghost use Rattle.ref_process.specs.declared.notice.Notice.{Notice};

/// Handing on a batch is handing on one by one: what it leaves is left by rows of `hand`, whose notices are in the
/// batch, behind those that were, each for its queue. So what holds of each run of a processor holds with batches too.
// promise: Processor::hand_batch: a batch is handed on one by one, and each of its notices is for its queue
pub fn a_batch_is_handed_on_one_by_one()
    ensures { (c : Crew) (i : ℕ) → i < length c.finders → (q most : ℕ) (xs : List Notice)
        → AreHandedOn c i q xs (handed_batch q most c.desk (lists_at c i) xs) }
{}
