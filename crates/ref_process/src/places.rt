//! The places of references.

ghost use Rattle.std.specs.Prelude.{◌≡◌, ◌<◌, ◌||◌, [], true, not, nat_lt, is_some, length, IfOk, OnErr};
ghost use Rattle.ref_process.specs.Places.{reference_under, is_new_key, any_vacancy, put_at, with_new, buried};
ghost use Rattle.ref_process.specs.Relocations.{relocated_handle, relocated_reference, relocated_place};
ghost use Rattle.ref_process.specs.Relocations.{relocated_places};

use crate::{Handle, Key, Moves, Place, Reference};
use std::alloc::{AllocError, Allocator, Global};
use std::marker::Model;

/// The places of references, of which the vacant ones are known. In a clause it is their list.
#[derive(Drop)]
pub(crate) struct Places<A: Allocator = Global> {
    places: Vec<Place, A>,
    // The vacant places, once each, with room for all.
    free: Vec<u32, A>,
}

impl<A: Allocator> Model for Places<A> {
    ghost use Rattle.std.specs.Prelude.{List, length, ◌≤◌};
    ghost use Rattle.std.specs.Vec.{vec_capacity};
    ghost use Rattle.ref_process.specs.declared.place.Place.{Place};
    ghost use Rattle.ref_process.specs.Places.{AreVacant};

    ghost Value = { List Place };

    ghost view = { λ s. s.places.items };

    ghost invariant = { λ s.
        AreVacant s.places.items s.free.items × (length s.places.items ≤ vec_capacity s.free) };
}

impl<A: Allocator + Copy> Places<A> {
    /// No place. Takes no memory.
    pub(crate) fn new(alloc: A) -> Self
        ensures { result ≡ [] }
    {
        Places {
            places: Vec::new(alloc),
            free: Vec::new(alloc),
        }
    }

    /// The places, first first.
    pub(crate) fn as_slice(&self) -> &[Place]
        ensures { result.now ≡ self.now }
    {
        self.places.as_slice()
    }

    /// The reference of a key, if it is one's. In constant time.
    pub(crate) fn reference(&self, key: Key) -> Option<Reference>
        ensures { result ≡ reference_under self.now key }
    {
        match self.places.get(key.place as usize) {
            Some(place) if place.round == key.round => place.held,
            _ => None,
        }
    }

    /// Changes the reference of a key. In constant time.
    pub(crate) fn put(&mut self, key: Key, reference: Reference)
        requires { is_some (reference_under self.old key) ≡ true }
        ensures { self.new ≡ put_at self.old key reference }
    {
        self.places[key.place as usize] = Place {
            round: key.round,
            held: Some(reference),
        };
    }

    /// Whether no place is vacant and there can't be one more: there are 2^32 - 1 at most. In constant time.
    pub(crate) fn is_full(&self) -> bool
        ensures { result ≡ not (any_vacancy self.now || nat_lt (length self.now) 4294967295) }
    {
        self.free.is_empty() && self.places.len() >= u32::MAX as usize
    }

    /// One more reference, in a vacant place, or else in a new one. Where memory is refused, nothing has changed. In
    /// constant time, amortized.
    pub(crate) fn add(&mut self, reference: Reference) -> Result<Key, AllocError>
        requires { any_vacancy self.old || nat_lt (length self.old) 4294967295 ≡ true }
        ensures key { IfOk result (λ key. is_new_key self.old key ≡ true) }
        ensures after { IfOk result (λ key. self.new ≡ with_new self.old key reference) }
        ensures unchanged { OnErr result (self.new ≡ self.old) }
    {
        match self.free.pop() {
            Some(place) => {
                let round = self.places[place as usize].round;
                let held = Some(reference);
                self.places[place as usize] = Place { round, held };
                Ok(Key { place, round })
            }
            None => {
                let place = self.places.len();
                let held = Some(reference);
                self.free.reserve(place + 1)?;
                self.places.push(Place { round: 0, held })?;
                Ok(Key {
                    place: place as u32,
                    round: 0,
                })
            }
        }
    }

    /// The reference of a key is dead. Its place may be used again in the next round, if there is one. Takes no memory.
    /// In constant time.
    pub(crate) fn bury(&mut self, key: Key)
        requires { is_some (reference_under self.old key) ≡ true }
        ensures { self.new ≡ buried self.old key }
    {
        let places = &mut self.places;
        let round = key.round + 1;
        places[key.place as usize] = Place { round, held: None };
        if round < u32::MAX {
            self.free.push_reserved(key.place);
        }
    }

    /// Objects have moved: each owner and each referent is where this says. Takes no memory. In time of the places.
    pub(crate) fn relocate<M: Moves>(&mut self, moves: &M)
        ensures { self.new ≡ relocated_places (M.moved_to moves.now) self.old }
    {
        relocate_all(&mut self.places, moves);
    }
}

// The references of these places have moved.
fn relocate_all<M: Moves>(places: &mut [Place], moves: &M)
    ensures { places.new ≡ relocated_places (M.moved_to moves.now) places.old }
{
    for place in places.iter_mut() {
        *place = relocated_place(*place, moves);
    }
}

// The place, whose reference has moved.
fn relocated_place<M: Moves>(place: Place, moves: &M) -> Place
    ensures { result ≡ relocated_place (M.moved_to moves.now) place }
{
    Place {
        round: place.round,
        held: place
            .held
            .map(|reference| relocated_reference(reference, moves)),
    }
}

// The reference with its owner and its referent where they are now.
fn relocated_reference<M: Moves>(reference: Reference, moves: &M) -> Reference
    ensures { result ≡ relocated_reference (M.moved_to moves.now) reference }
{
    Reference {
        owner: relocated_handle(reference.owner, moves),
        referent: relocated_handle(reference.referent, moves),
        ..reference
    }
}

// The handle that the object has now, if there is one.
fn relocated_handle<M: Moves>(handle: Option<Handle>, moves: &M) -> Option<Handle>
    ensures { result ≡ relocated_handle (M.moved_to moves.now) handle }
{
    handle.map(|handle| moves.moved_to(handle))
}
