//! What a caller of a table can prove of the words that it reads.

ghost use Rattle.std.specs.Prelude.{◌≡◌, ◌<◌, length, true};
ghost use Rattle.ref_space.specs.Naming.{IsReferentRead};
ghost use Rattle.ref_space.specs.Tables.{empty_table, left_of};

use ref_base::{ObjNo, Strength};
use ref_space::{Colour, NewReference, Table, Word, has_colour};
use std::alloc::Global;
use std::process::Abort;

// promise: Table::load, Table::word_at: a word that was loaded is null or has the good colour, also while objects move
fn a_loaded_word_is_good(table: &mut Table, from: usize, field: usize, good: Colour) -> bool
    requires from { from < length table.old.slots }
    requires good { table.old.round.good ≡ good }
    ensures { result ≡ true }
{
    let Some(no) = table.slot(from) else {
        return true;
    };
    if table.load(from, from, field).is_none() {
        return true;
    }
    match table.word_at(no, field) {
        Some(bits) => bits == 0 || has_colour(bits, good),
        None => true,
    }
}

// promise: Table::get_referent, Table::word_of_referent: a referent that was got is null or has the good colour
fn a_got_word_is_good(table: &mut Table, from: usize, word: Word, good: Colour) -> bool
    requires from { from < length table.old.slots }
    requires word { IsReferentRead table.old from word }
    requires good { table.old.round.good ≡ good }
    ensures { result ≡ true }
{
    let Some(no) = table.slot(from) else {
        return true;
    };
    table.get_referent(from, from, word);
    match table.word_of_referent(no) {
        Some(bits) => bits == 0 || has_colour(bits, good),
        None => true,
    }
}

/// A table in which object 2 is a weak reference to object 1, and has it in a field too. Then a round begins.
fn begun(rt: &impl Abort, alloc: Global) -> Table
    ensures slots { length result.slots ≡ 2 }
    ensures good { result.round.good ≡ Colour.B }
{
    let Ok(mut table) = Table::new(alloc, 2, 2, 1) else {
        panic!(rt; "no table");
    };
    table.push(0, ObjNo(1), 0, None, false);
    let reference = NewReference {
        strength: Strength::Weak,
        from: 0,
        stamp: 0,
        queue: None,
    };
    table.push(1, ObjNo(2), 1, Some(reference), false);
    table.store(1, 0, 0);
    let _count = table.len();
    table.begin(Colour::B);
    table
}

#[test]
fn what_callers_of_tables_see(rt: HostRuntime) {
    let mut loaded = begun(&rt, rt.alloc());
    assert!(rt;
        a_loaded_word_is_good(&mut loaded, 1, 0, Colour::B),
        "a loaded word is good"
    );
    let mut got = begun(&rt, rt.alloc());
    let Some((_reference, word)) = got.read_reference(1) else {
        panic!(rt; "no reference");
    };
    assert!(rt;
        a_got_word_is_good(&mut got, 1, word, Colour::B),
        "a got word is good"
    );
}
