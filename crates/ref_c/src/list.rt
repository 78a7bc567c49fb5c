//! The numbers that a reply lists, in a table of the caller's.

ghost use Rattle.std.specs.Prelude.{◌≡◌, ◌+◌, ◌<◌, ◌^◌, ℕ, List, [], ◌∷◌, ◌++◌, length};
ghost use Rattle.ref_base.specs.Outs.{outs_of, out_of};
ghost use Rattle.ref_c.specs.ReplyNumbers.{out_numbers, outs_numbers, reply_listed};
ghost use Rattle.ref_c.specs.Written.{IsWritten};

use ref_base::{Done, ObjNo, Reply};

/// Lists what the reply lists, behind so many places that are used: how many are used then. What finds no room is left
/// out. Takes no memory.
#[inline(always)]
pub fn list_reply(reply: &Reply, table: &mut [u64], used: usize) -> usize
    ensures { (first new : List ℕ) → IsWritten first new table.old used
        → IsWritten first (new ++ reply_listed reply.now) table.new result }
{
    match reply {
        Reply::Notices { objects, .. } => list_objects(objects.as_slice(), table, used),
        Reply::TookSome(objects) => list_objects(objects.as_slice(), table, used),
        Reply::Outs(outs) => list_outs(outs.before(), outs.as_slice(), table, used),
        _ => used,
    }
}

// The numbers of these objects.
fn list_objects(objects: &[ObjNo], table: &mut [u64], used: usize) -> usize
    ensures { (first new : List ℕ) → IsWritten first new table.old used
        → IsWritten first (new ++ objects.now) table.new result }
{
    match objects {
        [one, rest @ ..] => {
            let used = list_number(u64::from(one.0), table, used);
            list_objects(rest, table, used)
        }
        [] => used,
    }
}

// What became of each of these, where so many were put in before.
fn list_outs(before: u64, done: &[Done], table: &mut [u64], used: usize) -> usize
    requires { before + length done.now < 2 ^ 64 }
    ensures { (first new : List ℕ) → IsWritten first new table.old used
        → IsWritten first (new ++ outs_numbers (outs_of before done.now)) table.new result }
{
    match done {
        [one, rest @ ..] => {
            let used = list_out(before, *one, table, used);
            list_outs(before + u64::from(one.is_added()), rest, table, used)
        }
        [] => used,
    }
}

// What became of one, where so many were put in before.
fn list_out(before: u64, done: Done, table: &mut [u64], used: usize) -> usize
    ensures { (first new : List ℕ) → IsWritten first new table.old used
        → IsWritten first (new ++ out_numbers (out_of before done)) table.new result }
{
    let (kind, number) = match done {
        Done::Added => (73, before),
        Done::Already => (74, 0),
        Done::Closed => (75, 0),
        Done::Refused(fault) => (89, u64::from(fault.number())),
    };
    let used = list_number(kind, table, used);
    list_number(number, table, used)
}

// One number more, if there is room.
fn list_number(number: u64, table: &mut [u64], used: usize) -> usize
    ensures { (first new : List ℕ) → IsWritten first new table.old used
        → IsWritten first (new ++ number ∷ []) table.new result }
{
    if used < table.len() {
        table[used] = number;
        return used + 1;
    }
    used
}
