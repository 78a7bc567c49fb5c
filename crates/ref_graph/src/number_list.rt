//! Numbers of objects in the order in which they came.

ghost use Rattle.std.specs.Prelude.{◌≡◌, ◌+◌, ◌<◌, ◌≤◌, ◌^◌, ◌∷◌, ◌++◌, [], false, not, if◌then◌else◌, nat_eq};
ghost use Rattle.std.specs.Prelude.{length, is_some};
ghost use Rattle.std.specs.Prelude.{ℕ, true, nat_lt, IfOk, IfSome, OnOk, OnErr, position, get_or};
ghost use Rattle.std.specs.List.{IsDistinct};
ghost use Rattle.ref_base.specs.Members.{has};
ghost use Rattle.ref_base.specs.Strengths.{IsRising};
ghost use Rattle.ref_graph.specs.NumberPlaces.{first_far, place_before};

use indexmap::IndexMap;
use ref_base::ObjNo;
use std::alloc::{AllocError, Allocator};
use std::hash::{BuildHasherDefault, FoldHasher};
use std::marker::Model;

/// Numbers below this one are near. A table of all of them takes 4 MiB.
const NEAR: u32 = 1_048_576;

/// The length of the table is a multiple of this.
const STEP: usize = 1_024;

/// Numbers of objects, in the order in which they came, none twice. In a clause it is their list.
///
/// Most graphs number their objects from 1 on. So a table tells where each near number stands, by 4 bytes for each
/// number up to the greatest near one that came; where a far one stands is found by hashing.
#[derive(Drop)]
pub(crate) struct NumberList<A: Allocator> {
    in_order: Vec<ObjNo, A>,
    // By number, one more than the place where it stands, and 0 where it doesn't.
    near: Vec<u32, A>,
    // The place of each far number.
    far: IndexMap<ObjNo, u32, BuildHasherDefault<FoldHasher>, A>,
}

impl<A: Allocator> Model for NumberList<A> {
    ghost use Rattle.std.specs.Prelude.{ℕ, List};
    ghost use Rattle.std.specs.Coded.{coded_list, coded_ℕ};
    ghost use Rattle.ref_graph.specs.NumberPlaces.{TellsPlaces};

    ghost Value = { List ℕ };

    ghost coded = { coded_list coded_ℕ };

    ghost view = { λ s. s.in_order.items };

    ghost invariant = { λ s. TellsPlaces s.near.items s.far.entries s.in_order.items };
}

impl<A: Allocator + Copy> NumberList<A> {
    /// None yet. Takes no memory.
    pub(crate) fn new(alloc: A) -> Self
        ensures { result ≡ [] }
    {
        NumberList {
            in_order: Vec::new(alloc),
            near: Vec::new(alloc),
            far: IndexMap::new(alloc),
        }
    }

    /// How many came.
    #[inline(always)]
    pub(crate) fn len(&self) -> usize
        ensures count { result ≡ length self.now }
        ensures within { result < 2 ^ 63 }
    {
        self.in_order.as_slice().len()
    }

    /// All that came, in order.
    #[inline(always)]
    pub(crate) fn as_slice(&self) -> &[ObjNo]
        ensures numbers { result.now ≡ self.now }
        ensures distinct { IsDistinct nat_eq self.now }
    {
        self.in_order.as_slice()
    }

    /// Where a number stands, if it came. In constant time, of a far one expected.
    #[inline(always)]
    pub(crate) fn place(&self, no: ObjNo) -> Option<usize>
        ensures place { result ≡ position (nat_eq no) self.now }
        ensures came { is_some result ≡ has self.now no }
        ensures within { IfSome result (λ place. place < length self.now) }
    {
        if no.0 >= NEAR {
            return self.place_of_far(no);
        }
        place_before(entry_of(self.near.as_slice(), no))
    }

    // Where a far number stands, if it came. Never compiled into its callers.
    #[inline(never)]
    fn place_of_far(&self, no: ObjNo) -> Option<usize>
        requires { first_far ≤ no }
        ensures { result ≡ position (nat_eq no) self.now }
    {
        self.far.get(&no).map(|place| *place as usize)
    }

    /// Whether a number came.
    #[inline(always)]
    pub(crate) fn contains(&self, no: ObjNo) -> bool
        ensures { result ≡ has self.now no }
    {
        self.place(no).is_some()
    }

    /// A number comes, and is last then, unless it came before. Whether it is new. Where memory is refused, or
    /// 2 ^ 32 - 1 of them came, nothing has changed. A far one takes expected constant time, amortized; a near one that
    /// and the time of how far it is above all near ones before.
    #[inline(always)]
    pub(crate) fn insert(&mut self, no: ObjNo) -> Result<bool, AllocError>
        ensures is_new { IfOk result (λ is_new. has self.old no ≡ not is_new) }
        ensures after { IfOk result (λ is_new. self.new ≡ (if is_new then self.old ++ no ∷ [] else self.old)) }
        ensures err { OnErr result ((has self.old no ≡ false) × (self.new ≡ self.old)) }
    {
        if self.contains(no) {
            return Ok(false);
        }
        let Ok(next) = u32::try_from(self.len() + 1) else {
            return Err(AllocError);
        };
        if no.0 >= NEAR {
            self.push_far(no, next - 1)?;
        } else {
            self.push_near(no, next)?;
        }
        Ok(true)
    }

    /// All that came, by size. In time of how many they are, and of the greatest near one, and for the far ones times a
    /// logarithm.
    pub(crate) fn by_size<B: Allocator + Copy>(&self, alloc: B) -> Result<Vec<ObjNo, B>, AllocError>
        ensures rising { IfOk result (λ listed. IsRising listed.items) }
        ensures same { IfOk result (λ listed. (n : ℕ) → has listed.items n ≡ has self.now n) }
    {
        let near = self.near.as_slice();
        let mut listed = near_numbers(alloc, &near[..near.len().min(NEAR as usize)])?;
        let far = far_numbers(alloc, self.as_slice())?;
        listed.extend_from_slice(far.as_slice())?;
        Ok(listed)
    }

    // A near number comes that is new; with it there are `next` of them.
    #[inline(always)]
    fn push_near(&mut self, no: ObjNo, next: u32) -> Result<(), AllocError>
        requires near { no < first_far }
        requires new { has self.old no ≡ false }
        requires count { next ≡ length self.old + 1 }
        ensures after { OnOk result (self.new ≡ self.old ++ no ∷ []) }
        ensures err { OnErr result (self.new ≡ self.old) }
    {
        reach(&mut self.near, no)?;
        self.in_order.push(no)?;
        self.near[no.0 as usize] = next;
        Ok(())
    }

    // A far number comes that is new, at this place. It is kept out of its callers.
    #[inline(never)]
    fn push_far(&mut self, no: ObjNo, place: u32) -> Result<(), AllocError>
        requires far { first_far ≤ no }
        requires new { has self.old no ≡ false }
        requires count { place ≡ length self.old }
        ensures after { OnOk result (self.new ≡ self.old ++ no ∷ []) }
        ensures err { OnErr result (self.new ≡ self.old) }
    {
        self.in_order.reserve(1)?;
        self.far.insert(no, place)?;
        self.in_order.push_reserved(no);
        Ok(())
    }
}

// The near numbers that came, which rise.
fn near_numbers<B: Allocator>(alloc: B, near: &[u32]) -> Result<Vec<ObjNo, B>, AllocError>
    requires { length near.now ≤ first_far }
    ensures rising { IfOk result (λ listed. IsRising listed.items) }
    ensures came { IfOk result (λ listed. (n : ℕ) → has listed.items n ≡ is_some (place_before (get_or near.now n 0))) }
{
    let mut listed: Vec<ObjNo, B> = Vec::new(alloc);
    let mut number = 0u32;
    for entry in near {
        if *entry > 0 {
            listed.push(ObjNo(number))?;
        }
        number += 1;
    }
    Ok(listed)
}

// The far ones of these numbers, which rise.
fn far_numbers<B: Allocator>(alloc: B, numbers: &[ObjNo]) -> Result<Vec<ObjNo, B>, AllocError>
    requires { IsDistinct nat_eq numbers.now }
    ensures rising { IfOk result (λ listed. IsRising listed.items) }
    ensures came { IfOk result (λ listed. (n : ℕ) → has listed.items n
        ≡ (if nat_lt n first_far then false else has numbers.now n)) }
{
    let mut listed: Vec<ObjNo, B> = Vec::new(alloc);
    for no in numbers {
        if no.0 >= NEAR {
            listed.push(*no)?;
        }
    }
    listed.sort_unstable();
    Ok(listed)
}

// A number's entry in the table, 0 where that doesn't reach it.
#[inline(always)]
fn entry_of(near: &[u32], no: ObjNo) -> u32
    ensures { result ≡ get_or near.now no 0 }
{
    let at = no.0 as usize;
    if at < near.len() { near[at] } else { 0 }
}

// The place that an entry tells.
#[inline(always)]
fn place_before(entry: u32) -> Option<usize>
    ensures { result ≡ place_before entry }
{
    if entry == 0 {
        return None;
    }
    Some((entry - 1) as usize)
}

// The table comes to reach this near number, and no entry changes.
#[inline(always)]
fn reach<A: Allocator>(near: &mut Vec<u32, A>, no: ObjNo) -> Result<(), AllocError>
    requires { no < first_far }
    ensures same { (n : ℕ) → get_or near.new.items n 0 ≡ get_or near.old.items n 0 }
    ensures reaches { OnOk result (no < length near.new.items) }
{
    if (no.0 as usize) < near.len() {
        return Ok(());
    }
    extend(near, no.0 as usize)
}

// The table grows until it reaches this near number, and no entry changes. Never compiled into its callers.
#[inline(never)]
fn extend<A: Allocator>(near: &mut Vec<u32, A>, at: usize) -> Result<(), AllocError>
    requires { at < first_far }
    ensures same { (n : ℕ) → get_or near.new.items n 0 ≡ get_or near.old.items n 0 }
    ensures reaches { OnOk result (at < length near.new.items) }
{
    let length = at / STEP * STEP + STEP;
    if near.len() < length {
        near.resize(length, 0)?;
    }
    Ok(())
}
