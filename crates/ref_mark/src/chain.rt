//! A list of objects as a chain of the links in their records.

ghost use Rattle.std.specs.Prelude.{◌≡◌, ◌==◌, if◌then◌else◌};
ghost use Rattle.std.specs.Option.{option_map};
ghost use Rattle.ref_objects.specs.Grounds.{linked_in, look_of};
ghost use Rattle.ref_space.specs.Worklists.{listed_at};
ghost use Rattle.ref_mark.specs.Chains.{no_chain, chain_first, listed, linked_last, chain_with, chain_without_first};
ghost use Rattle.ref_mark.specs.Chains.{next_of, chain_from, first_looked_at};

use ref_base::ObjNo;
use ref_objects::{Entry, Linked, Look, Objects};
use std::alloc::Allocator;

/// The first and the last object of a list in which each object but the last links to the next. The first is 0 where
/// nothing stands in it, and the last then says nothing. It takes no memory beside its 8 bytes; whose lists are
/// disjoint can have many of them over the same objects.
#[derive(Clone, Copy)]
pub struct Chain {
    /// The number of the first, or 0.
    pub first: u32,
    /// The number of the last.
    pub last: u32,
}

impl Chain {
    /// An empty list.
    pub fn new() -> Self
        ensures { result ≡ no_chain }
    {
        Chain { first: 0, last: 0 }
    }

    /// One more, last: the one that was last links to it. In logarithmic time.
    #[inline(always)]
    pub fn push<A: Allocator + Copy>(&mut self, objects: &mut Objects<A>, no: ObjNo)
        ensures links { objects.new ≡ record objects.old { tags = linked_last objects.old.tags self.old no } }
        ensures chain { self.new ≡ chain_with self.old no }
    {
        if self.first == 0 {
            self.first = no.0;
        } else {
            objects.set_link(ObjNo(self.last), no.0);
        }
        self.last = no.0;
    }

    /// Lists the object behind the last one, as `push`. In constant time where the one that was last lies at this
    /// place.
    #[inline(always)]
    pub fn push_near<A: Allocator + Copy>(
        &mut self,
        objects: &mut Objects<A>,
        no: ObjNo,
        place: u32,
    )
        ensures links { objects.new ≡ record objects.old { tags = linked_last objects.old.tags self.old no } }
        ensures chain { self.new ≡ chain_with self.old no }
    {
        if self.first == 0 {
            self.first = no.0;
        } else {
            let last = Entry {
                no: ObjNo(self.last),
                place,
            };
            objects.set_link_near(last, no.0);
        }
        self.last = no.0;
    }

    /// Takes the first, and answers what the list has of it. In logarithmic time.
    #[inline(always)]
    pub fn take_first<A: Allocator + Copy>(&mut self, objects: &Objects<A>) -> Option<Linked>
        ensures answer { result ≡ option_map (linked_in objects.now) (chain_first self.old) }
        ensures after { self.new ≡ chain_without_first objects.now.tags self.old }
    {
        if self.first == 0 {
            return None;
        }
        let linked = objects.linked_of(ObjNo(self.first));
        self.drop_first(linked.link);
        Some(linked)
    }

    /// Takes the first, and looks at it: where it is a reference to an object that isn't marked, it is cleared, in this
    /// cycle. By one search.
    #[inline(always)]
    pub fn look_at_first<A: Allocator + Copy>(
        &mut self,
        objects: &mut Objects<A>,
        cycle: u64,
    ) -> Option<Look>
        ensures answer { result ≡ option_map (look_of objects.old) (chain_first self.old) }
        ensures objects { objects.new ≡ first_looked_at objects.old (chain_first self.old) cycle }
        ensures after { self.new ≡ chain_without_first objects.old.tags self.old }
    {
        if self.first == 0 {
            return None;
        }
        let look = objects.look_at(ObjNo(self.first), cycle);
        self.drop_first(look.was.link);
        Some(look)
    }

    // The first goes, which links to this.
    #[inline(always)]
    fn drop_first(&mut self, link: u32)
        ensures { self.new ≡ chain_from self.old link }
    {
        self.first = if self.first == self.last { 0 } else { link };
    }

    /// The number of the one that stands behind this one, or 0 behind the last. In logarithmic time.
    pub fn next<A: Allocator + Copy>(&self, objects: &Objects<A>, no: u32) -> u32
        ensures { result ≡ next_of objects.now.tags self.now.last no }
    {
        if no == self.last {
            return 0;
        }
        objects.link_of(ObjNo(no))
    }

    /// That at this place, from 0 on. In logarithmic time for each place before it.
    pub fn get<A: Allocator + Copy>(&self, objects: &Objects<A>, place: usize) -> Option<ObjNo>
        ensures { result ≡ listed_at (listed objects.now.tags objects.now.heap.config.cells self.now) place }
    {
        if place >= objects.config().cells as usize {
            return None;
        }
        let mut no = self.first;
        for _step in 0..place {
            if no == 0 {
                return None;
            }
            no = self.next(objects, no);
        }
        if no == 0 { None } else { Some(ObjNo(no)) }
    }
}
