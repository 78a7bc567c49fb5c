//! Object graphs.

ghost use Rattle.std.specs.Prelude.{◌≡◌, IfOk};
ghost use Rattle.std.specs.Option.{option_map};
ghost use Rattle.ref_graph.specs.GraphViews.{linked_reference};
ghost use Rattle.ref_graph.specs.GraphAnswers.{AnswersObject, after_object, AnswersRoot, after_root};
ghost use Rattle.ref_base.specs.Graphs.{empty_graph, is_there, numbers, object_at, plain_object, reference_object};
ghost use Rattle.ref_base.specs.Strengths.{IsRising};

use crate::number_list::NumberList;
use crate::stored::{Lent, Link, Stored};
use ref_base::{Fault, MOST_FIELDS, ObjNo, Strength};
use std::alloc::{AllocError, Allocator, Global};
use std::marker::Model;

/// An object graph: objects, what they refer to, and roots, the numbers that a program reaches by itself (package
/// `java.lang.ref` of Java SE 17). That objects have numbers and at most 8 fields is this project's profile. All its
/// memory is of the allocator that it was made with: 28 bytes for each object, 8 for each field and 4 for each root.
/// Two tables of numbers, those of objects and those of roots, take 4 bytes for each number up to their greatest below
/// 2 ^ 20. From there on each number takes a place in a hash table. A list that grows has room for up to twice as many.
#[derive(Drop)]
pub struct Graph<A: Allocator = Global> {
    // In the order in which they were added: a search looks each up by number, and only a listing sorts them.
    numbers: NumberList<A>,
    // What is stored of the objects of these numbers, in the same order.
    stored: Vec<Stored, A>,
    // Those of all objects, one object's after another's: most objects have few of the fields that they may have.
    fields: Vec<Option<ObjNo>, A>,
    roots: NumberList<A>,
}

impl<A: Allocator> Model for Graph<A> {
    ghost use Rattle.std.specs.Prelude.{◌≡◌, length, zip};
    ghost use Rattle.ref_graph.specs.GraphViews.{held_in, objects_in, HaveFieldsWithin};
    ghost use Rattle.ref_base.specs.Graphs.{Graph as Data};

    ghost Value = { Data };

    ghost view = { λ g.
        record { objects = objects_in (held_in g.fields.items (zip g.numbers g.stored.items)); roots = g.roots } };

    ghost invariant = { λ g. (length g.numbers ≡ length g.stored.items)
        × HaveFieldsWithin (length g.fields.items) (zip g.numbers g.stored.items) };
}

impl<A: Allocator + Copy> Graph<A> {
    /// No object and no root. Takes no memory.
    pub fn new(alloc: A) -> Self
        ensures { result ≡ empty_graph }
    {
        Graph {
            numbers: NumberList::new(alloc),
            stored: Vec::new(alloc),
            fields: Vec::new(alloc),
            roots: NumberList::new(alloc),
        }
    }

    /// Adds a plain object, with these fields, each an object's number or null. True where it was added, false where an
    /// object of its number was there, which then stays as it is. A field may name an object that isn't there, or comes
    /// later: while it isn't there, no path goes on to it.
    ///
    /// Tried in this order: `BadField` where there are more than 8 fields, false where the number is there, and
    /// `NoMemory`. That comes where a growth is refused, or where there are 2 ^ 32 - 1 objects, or objects with 2 ^ 32
    /// fields in all. In each of the three nothing has changed, though room that was made for the fields is kept where
    /// a further growth is refused. False and `BadField` take no memory. In expected constant time, amortized, and in
    /// time of how far its number, where it is below 2 ^ 20, is above all of those before.
    pub fn add_object(&mut self, no: ObjNo, fields: &[Option<ObjNo>]) -> Result<bool, Fault>
        ensures answer { AnswersObject self.old (plain_object no fields.now) result }
        ensures after { self.new ≡ after_object self.old (plain_object no fields.now) result }
    {
        self.add(no, fields, None)
    }

    /// Adds an object that is a reference: how strongly it holds its referent, and the referent or null. Its stamp is
    /// 0, and it has no queue. Its answers, their order and its costs are those of `add_object`.
    pub fn add_reference(
        &mut self,
        no: ObjNo,
        strength: Strength,
        referent: Option<ObjNo>,
        fields: &[Option<ObjNo>],
    ) -> Result<bool, Fault>
        ensures answer { AnswersObject self.old (reference_object no strength referent fields.now) result }
        ensures after { self.new ≡ after_object self.old (reference_object no strength referent fields.now) result }
    {
        let link = Link { strength, referent };
        self.add(no, fields, Some(link))
    }

    // Adds an object, plain or a reference.
    fn add(
        &mut self,
        no: ObjNo,
        fields: &[Option<ObjNo>],
        link: Option<Link>,
    ) -> Result<bool, Fault>
        ensures answer { AnswersObject self.old
            (record { no = no; fields = fields.now; reference = linked_reference link }) result }
        ensures after { self.new ≡ after_object self.old
            (record { no = no; fields = fields.now; reference = linked_reference link }) result }
    {
        if fields.len() > MOST_FIELDS {
            return Err(Fault::BadField);
        }
        if self.numbers.contains(no) {
            return Ok(false);
        }
        let Ok(start) = u32::try_from(self.fields.len()) else {
            return Err(Fault::NoMemory);
        };
        if self.stored.reserve(1).is_err() || self.fields.extend_from_slice(fields).is_err() {
            return Err(Fault::NoMemory);
        }
        if self.numbers.insert(no).is_err() {
            // No object has these fields.
            self.fields.truncate(start as usize);
            return Err(Fault::NoMemory);
        }
        let count = fields.len() as u8;
        self.stored.push_reserved(Stored { start, count, link });
        Ok(true)
    }

    /// Makes a number a root. True where it was none. It needn't be an object's: while there is no such object, no path
    /// begins there. The one error is `NoMemory`, where a growth is refused or there are 2 ^ 32 - 1 roots: then nothing
    /// has changed, and it was no root. In the time of `add_object`.
    pub fn add_root(&mut self, no: ObjNo) -> Result<bool, Fault>
        ensures answer { AnswersRoot self.old no result }
        ensures after { self.new ≡ after_root self.old no result }
    {
        match self.roots.insert(no) {
            Ok(is_new) => Ok(is_new),
            Err(_) => Err(Fault::NoMemory),
        }
    }

    /// Whether there is an object of this number. In expected constant time.
    pub(crate) fn has_object(&self, no: ObjNo) -> bool
        ensures { result ≡ is_there self.now.objects no }
    {
        self.numbers.contains(no)
    }

    /// The object of this number. In expected constant time.
    pub(crate) fn object(&self, no: ObjNo) -> Option<Lent<'_>>
        ensures { option_map
            (λ o. record { no = no; fields = o.fields.now; reference = linked_reference o.link }) result
            ≡ object_at self.now.objects no }
    {
        let stored = self.stored[self.numbers.place(no)?];
        Some(Lent {
            fields: stored.fields_among(&self.fields),
            link: stored.link,
        })
    }

    /// The roots, in the order in which they were added.
    pub(crate) fn roots(&self) -> &[ObjNo]
        ensures { result.now ≡ self.now.roots }
    {
        self.roots.as_slice()
    }

    /// The numbers of the objects, which rise. In time of how many they are and of the greatest below 2 ^ 20; the
    /// greater ones take a logarithm each.
    pub(crate) fn numbers<B: Allocator + Copy>(&self, alloc: B) -> Result<Vec<ObjNo, B>, AllocError>
        ensures all { IfOk result (λ listed. listed.items ≡ numbers self.now.objects) }
        ensures sorted { IsRising (numbers self.now.objects) }
    {
        self.numbers.by_size(alloc)
    }
}
