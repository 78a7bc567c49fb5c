//! How strongly the objects of a graph are reachable.

ghost use Rattle.std.specs.Prelude.{◌≡◌, IfOk, OnOk, OnErr, [], take};
ghost use Rattle.ref_base.specs.Graphs.{numbers, object_at};
ghost use Rattle.ref_graph.specs.GraphAnswers.{AnswersStrength};
ghost use Rattle.ref_base.specs.Paths.{if_any};
ghost use Rattle.ref_base.specs.Searches.{added_all, phantom_referents, phantom_referent_at, AreSearched};
ghost use Rattle.ref_base.specs.Searches.{found_reach, found_reaches};
ghost use Rattle.ref_base.specs.Strengths.{AreStrengths, IsRising};

use crate::Graph;
use crate::number_list::NumberList;
use crate::search::{Allow, add_if_any, add_roots, go_on};
use ref_base::{Fault, ObjNo, ObjectReach, Reach, Strength};
use std::alloc::{AllocError, Allocator};

// The referent of the object of this number, if it is a phantom reference.
fn phantom_referent<A: Allocator + Copy>(graph: &Graph<A>, no: ObjNo) -> Option<ObjNo>
    ensures { if_any result ≡ phantom_referent_at (object_at graph.now.objects no) }
{
    let Some(object) = graph.object(no) else {
        return None;
    };
    match object.link {
        Some(link) if link.strength == Strength::Phantom => link.referent,
        _ => None,
    }
}

// The referents of those of these objects that are phantom references. What lies behind such a referent is not among
// them: it is phantom reachable only where a phantom reference refers to it too.
fn add_hung<A: Allocator + Copy, B: Allocator + Copy>(
    hung: &mut NumberList<B>,
    graph: &Graph<A>,
    reached: &[ObjNo],
) -> Result<(), AllocError>
    ensures { OnOk result (hung.new
        ≡ added_all graph.now.objects hung.old (phantom_referents graph.now.objects reached.now)) }
{
    for no in reached {
        add_if_any(hung, graph, phantom_referent(graph, *no))?;
    }
    Ok(())
}

// What a search found: first what paths lead to that go through no references, then what else they lead to through soft
// ones, then through weak ones too. Apart from that stands what hangs on a phantom reference among all of them.
#[derive(Drop)]
struct Found<B: Allocator> {
    reached: NumberList<B>,
    // How many of them are strong, and how many are strong or soft.
    strong: usize,
    soft: usize,
    hung: NumberList<B>,
}

impl<B: Allocator + Copy> Found<B> {
    // Nothing yet. Takes no memory.
    fn new(alloc: B) -> Self
        ensures { (result.reached ≡ []) × (result.hung ≡ []) }
    {
        Found {
            reached: NumberList::new(alloc),
            strong: 0,
            soft: 0,
            hung: NumberList::new(alloc),
        }
    }

    // Searches, and goes on twice, from nothing.
    fn search<A: Allocator + Copy>(&mut self, graph: &Graph<A>) -> Result<(), AllocError>
        requires { (self.old.reached ≡ []) × (self.old.hung ≡ []) }
        ensures { OnOk result (AreSearched graph.now (take self.new.strong self.new.reached)
            (take self.new.soft self.new.reached) self.new.reached self.new.hung) }
    {
        add_roots(&mut self.reached, graph, graph.roots())?;
        go_on(&mut self.reached, graph, Allow::NoReferents, 0)?;
        self.strong = self.reached.len();
        go_on(&mut self.reached, graph, Allow::Soft, self.strong)?;
        self.soft = self.reached.len();
        go_on(&mut self.reached, graph, Allow::SoftAndWeak, self.soft)?;
        add_hung(&mut self.hung, graph, self.reached.as_slice())
    }

    // Where in the search the number was found tells its strength.
    fn reach_of(&self, no: ObjNo) -> Reach
        ensures { result ≡ found_reach (take self.now.strong self.now.reached)
            (take self.now.soft self.now.reached) self.now.reached self.now.hung no }
    {
        match self.reached.place(no) {
            Some(place) if place < self.strong => Reach::Strong,
            Some(place) if place < self.soft => Reach::Soft,
            Some(_) => Reach::Weak,
            None if self.hung.contains(no) => Reach::Phantom,
            None => Reach::Unreachable,
        }
    }

    // The strength of each object of the graph that was searched.
    fn reach_of_all<A: Allocator + Copy>(
        &self,
        alloc: B,
        graph: &Graph<A>,
    ) -> Result<Vec<ObjectReach, B>, AllocError>
        ensures ok { IfOk result (λ listed. listed.items ≡ found_reaches (take self.now.strong self.now.reached)
            (take self.now.soft self.now.reached) self.now.reached self.now.hung
            (numbers graph.now.objects)) }
        ensures sorted { IsRising (numbers graph.now.objects) }
    {
        let numbers = graph.numbers(alloc)?;
        numbers
            .iter()
            .map(|no| ObjectReach {
                object: *no,
                reach: self.reach_of(*no),
            })
            .collect(alloc)
    }
}

/// How strongly the object of this number is reachable (package `java.lang.ref` of Java SE 17). The referent of a
/// phantom reference is phantom reachable only where that reference is itself reachable by strong, soft and weak steps.
/// What lies behind such a referent isn't phantom reachable by that. Both are this project's profile.
///
/// `NoSuchObject` exactly where there is no such object, which takes no memory to tell; else `NoMemory` where a growth
/// is refused. In expected time of the number of objects, fields and roots, and of the objects' greatest number below
/// 2 ^ 20.
pub fn strength_of<A: Allocator + Copy, B: Allocator + Copy>(
    alloc: B,
    graph: &Graph<A>,
    no: ObjNo,
) -> Result<Reach, Fault>
    ensures { AnswersStrength graph.now no result }
{
    if !graph.has_object(no) {
        return Err(Fault::NoSuchObject);
    }
    let mut found = Found::new(alloc);
    match found.search(graph) {
        Ok(()) => Ok(found.reach_of(no)),
        Err(_) => Err(Fault::NoMemory),
    }
}

/// How strongly each object is reachable, by number. The one error is `NoMemory`. All of them in the time of one
/// (`strength_of`), and of sorting the numbers from 2 ^ 20 on: three searches serve them all.
pub fn strengths<A: Allocator + Copy, B: Allocator + Copy>(
    alloc: B,
    graph: &Graph<A>,
) -> Result<Vec<ObjectReach, B>, Fault>
    ensures ok { IfOk result (λ listed. AreStrengths graph.now listed.items) }
    ensures err { OnErr result (result ≡ Err Fault.NoMemory) }
{
    match list(alloc, graph) {
        Ok(listed) => Ok(listed),
        Err(_) => Err(Fault::NoMemory),
    }
}

// How strongly each object is reachable, by number, or the allocator's error.
fn list<A: Allocator + Copy, B: Allocator + Copy>(
    alloc: B,
    graph: &Graph<A>,
) -> Result<Vec<ObjectReach, B>, AllocError>
    ensures { IfOk result (λ listed. AreStrengths graph.now listed.items) }
{
    let mut found = Found::new(alloc);
    found.search(graph)?;
    found.reach_of_all(alloc, graph)
}
