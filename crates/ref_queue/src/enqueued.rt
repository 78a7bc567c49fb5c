//! The numbers of all that was ever put into a queue.

ghost use Rattle.std.specs.Prelude.{◌≡◌, ◌==◌, ◌<◌, ◌^◌, ◌∷◌, ◌++◌, [], false, not, if◌then◌else◌, nat_eq, length};
ghost use Rattle.std.specs.Prelude.{IfOk, OnErr};
ghost use Rattle.std.specs.Int.{bit_at};
ghost use Rattle.std.specs.List.{IsDistinct};
ghost use Rattle.ref_base.specs.Members.{has};

use indexmap::IndexMap;
use ref_base::ObjNo;
use std::alloc::{AllocError, Allocator, Global};
use std::hash::{BuildHasherDefault, FoldHasher};
use std::marker::Model;

/// Numbers of objects, in the order in which they came, none twice. In a clause it is their list.
///
/// References of one heap have numbers near one another. So whether a number came is told by a word for each 64 of
/// them, in expected constant time, and most lookups find a word that was used just before.
#[derive(Drop)]
pub(crate) struct Enqueued<A: Allocator = Global> {
    in_order: Vec<ObjNo, A>,
    // Of each block of 64 numbers where one came, the word whose bit n is set where the block's number n came.
    blocks: IndexMap<u32, u64, BuildHasherDefault<FoldHasher>, A>,
}

impl<A: Allocator> Model for Enqueued<A> {
    ghost use Rattle.std.specs.Prelude.{ℕ, List};
    ghost use Rattle.std.specs.Coded.{coded_list, coded_ℕ};
    ghost use Rattle.ref_queue.specs.NumberBlocks.{TellsNumbers};

    ghost Value = { List ℕ };

    ghost coded = { coded_list coded_ℕ };

    ghost view = { λ s. s.in_order.items };

    ghost invariant = { λ s. TellsNumbers s.blocks.entries s.in_order.items };
}

impl<A: Allocator + Copy> Enqueued<A> {
    /// None yet. Takes no memory.
    pub(crate) fn new(alloc: A) -> Self
        ensures { result ≡ [] }
    {
        Enqueued {
            in_order: Vec::new(alloc),
            blocks: IndexMap::new(alloc),
        }
    }

    /// How many came.
    #[inline(always)]
    pub(crate) fn len(&self) -> usize
        ensures count { result ≡ length self.now }
        ensures within { result < 2 ^ 63 }
    {
        self.in_order.as_slice().len()
    }

    /// All that came, in order.
    pub(crate) fn as_slice(&self) -> &[ObjNo]
        ensures numbers { result.now ≡ self.now }
        ensures distinct { IsDistinct nat_eq self.now }
    {
        self.in_order.as_slice()
    }

    /// Whether this came. In expected constant time.
    pub(crate) fn contains(&self, number: ObjNo) -> bool
        ensures { result ≡ has self.now number }
    {
        match self.blocks.get(&(number.0 / 64)) {
            Some(word) => is_set(*word, number.0 % 64),
            None => false,
        }
    }

    /// The number comes last, unless it came before. Returns whether it is new. In expected constant time, amortized.
    /// Where memory is refused, nothing has changed.
    #[inline(always)]
    pub(crate) fn insert(&mut self, number: ObjNo) -> Result<bool, AllocError>
        ensures is_new { IfOk result (λ is_new. has self.old number ≡ not is_new) }
        ensures after { IfOk result (λ is_new. self.new ≡ (if is_new then self.old ++ number ∷ [] else self.old)) }
        ensures err { OnErr result ((has self.old number ≡ false) × (self.new ≡ self.old)) }
    {
        let place = number.0 % 64;
        match self.blocks.get_mut(&(number.0 / 64)) {
            Some(word) => {
                if is_set(*word, place) {
                    return Ok(false);
                }
                self.in_order.reserve(1)?;
                *word |= 1u64 << place;
            }
            None => {
                self.in_order.reserve(1)?;
                self.blocks.insert(number.0 / 64, 1u64 << place)?;
            }
        }
        self.in_order.push_reserved(number);
        Ok(true)
    }
}

// Whether a bit is set.
#[inline(always)]
fn is_set(word: u64, place: u32) -> bool
    requires { place < 64 }
    ensures { result ≡ (bit_at word place == 1) }
{
    word >> place & 1 == 1
}
