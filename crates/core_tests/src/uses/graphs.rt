//! What a caller of a graph can prove of its answers.

ghost use Rattle.std.specs.Prelude.{◌≡◌, true};
ghost use Rattle.ref_base.specs.Graphs.{empty_graph};

use ref_base::{Fault, ObjNo, Reach, Strength};
use ref_graph::{Graph, strength_of};
use std::alloc::Global;

// promise: Graph::add_object: a second object of a number is told as not added
fn a_second_object_is_not_added(graph: &mut Graph) -> bool
    requires { graph.old ≡ empty_graph }
    ensures { result ≡ true }
{
    let Ok(_added) = graph.add_object(ObjNo(7), &[]) else {
        return true;
    };
    match graph.add_object(ObjNo(7), &[Some(ObjNo(7))]) {
        Ok(is_added) => !is_added,
        Err(_) => false,
    }
}

// promise: Graph::add_reference: BadField comes first, also of a number that is there
fn nine_fields_are_too_many(graph: &mut Graph) -> bool
    ensures { result ≡ true }
{
    let _there = graph.add_object(ObjNo(7), &[]);
    match graph.add_reference(ObjNo(7), Strength::Weak, None, &[None; 9]) {
        Err(Fault::BadField) => true,
        _ => false,
    }
}

// promise: Graph::add_root, strength_of: a root makes no object
fn a_root_is_no_object(graph: &mut Graph, alloc: Global) -> bool
    requires { graph.old ≡ empty_graph }
    ensures { result ≡ true }
{
    let _root = graph.add_root(ObjNo(7));
    match strength_of(alloc, graph, ObjNo(7)) {
        Err(Fault::NoSuchObject) => true,
        _ => false,
    }
}

// promise: strength_of: the referent of a weak reference is weak
fn strength_of_a_weak_referent(graph: &mut Graph, alloc: Global) -> Reach
    requires { graph.old ≡ empty_graph }
    ensures { result ≡ Reach.Weak }
{
    let (Ok(_root), Ok(_refers), Ok(_referent)) = (
        graph.add_root(ObjNo(1)),
        graph.add_reference(ObjNo(1), Strength::Weak, Some(ObjNo(2)), &[]),
        graph.add_object(ObjNo(2), &[]),
    ) else {
        return Reach::Weak;
    };
    match strength_of(alloc, graph, ObjNo(2)) {
        Ok(reach) => reach,
        Err(_) => Reach::Weak,
    }
}

// promise: strength_of: what only an unreachable phantom reference has is unreachable
fn strength_behind_what_nothing_reaches(graph: &mut Graph, alloc: Global) -> Reach
    requires { graph.old ≡ empty_graph }
    ensures { result ≡ Reach.Unreachable }
{
    let (Ok(_refers), Ok(_referent)) = (
        graph.add_reference(ObjNo(1), Strength::Phantom, Some(ObjNo(2)), &[]),
        graph.add_object(ObjNo(2), &[]),
    ) else {
        return Reach::Unreachable;
    };
    match strength_of(alloc, graph, ObjNo(2)) {
        Ok(reach) => reach,
        Err(_) => Reach::Unreachable,
    }
}

#[test]
fn what_callers_of_a_graph_see(rt: HostRuntime) {
    let alloc = rt.alloc();
    let mut graph = Graph::new(alloc);
    let weak = strength_of_a_weak_referent(&mut Graph::new(alloc), alloc);
    let behind = strength_behind_what_nothing_reaches(&mut Graph::new(alloc), alloc);
    assert!(rt; a_second_object_is_not_added(&mut graph));
    assert!(rt; nine_fields_are_too_many(&mut graph));
    assert!(rt; a_root_is_no_object(&mut Graph::new(alloc), alloc));
    assert!(rt; weak == Reach::Weak);
    assert!(rt; behind == Reach::Unreachable);
}
