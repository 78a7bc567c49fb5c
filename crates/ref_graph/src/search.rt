//! The search for all objects that paths from the roots lead to. The list of what it has seen is also its list of
//! work: it goes on from one number after the other, and puts what it finds at the end. It can then go on with more
//! references that paths may go through, so that what it found before stays the front of its list.

ghost use Rattle.std.specs.Prelude.{◌≡◌, OnOk, length, take};
ghost use Rattle.ref_graph.specs.GraphViews.{linked_reference};
ghost use Rattle.ref_base.specs.Graphs.{object_at};
ghost use Rattle.ref_base.specs.Paths.{allowed_referent, if_any, present, targets_at};
ghost use Rattle.ref_base.specs.Searches.{with_reached, added_all, searched_referents, ArePathEnds};
ghost use Rattle.ref_base.specs.Searches.{IsSearched};
ghost use Rattle.ref_graph.specs.AllowedReferents.{allows, allowed};

use crate::Graph;
use crate::number_list::NumberList;
use crate::stored::Link;
use ref_base::{ObjNo, Strength};
use std::alloc::{AllocError, Allocator};

/// Which references a path may go through.
#[derive(Clone, Copy)]
pub(crate) enum Allow {
    /// None: a path goes over fields alone.
    NoReferents,
    /// Soft references.
    Soft,
    /// Soft and weak references.
    SoftAndWeak,
}

impl Allow {
    /// Whether a path may go through a reference of this strength.
    fn allows(self, strength: Strength) -> bool
        ensures { result ≡ allows self strength }
    {
        match (self, strength) {
            (Allow::NoReferents, _) => false,
            (Allow::Soft, Strength::Soft) => true,
            (Allow::SoftAndWeak, Strength::Soft | Strength::Weak) => true,
            _ => false,
        }
    }

    // The referent, where a path may go through to it.
    fn referent(self, link: Option<Link>) -> Option<ObjNo>
        ensures { if_any result ≡ allowed_referent (allowed self) (linked_reference link) }
    {
        match link {
            Some(link) if self.allows(link.strength) => link.referent,
            _ => None,
        }
    }
}

// One more number, where it is an object's.
fn add<A: Allocator + Copy, B: Allocator + Copy>(
    seen: &mut NumberList<B>,
    graph: &Graph<A>,
    no: ObjNo,
) -> Result<(), AllocError>
    ensures { OnOk result (seen.new ≡ with_reached graph.now.objects seen.old no) }
{
    if graph.has_object(no) {
        seen.insert(no)?;
    }
    Ok(())
}

/// One more number, if any, where it is an object's.
pub(crate) fn add_if_any<A: Allocator + Copy, B: Allocator + Copy>(
    seen: &mut NumberList<B>,
    graph: &Graph<A>,
    value: Option<ObjNo>,
) -> Result<(), AllocError>
    ensures { OnOk result (seen.new ≡ added_all graph.now.objects seen.old (if_any value)) }
{
    match value {
        Some(no) => add(seen, graph, no),
        None => Ok(()),
    }
}

// What these fields hold.
fn add_fields<A: Allocator + Copy, B: Allocator + Copy>(
    seen: &mut NumberList<B>,
    graph: &Graph<A>,
    fields: &[Option<ObjNo>],
) -> Result<(), AllocError>
    ensures { OnOk result (seen.new ≡ added_all graph.now.objects seen.old (present fields.now)) }
{
    for field in fields {
        add_if_any(seen, graph, *field)?;
    }
    Ok(())
}

/// Where paths begin.
pub(crate) fn add_roots<A: Allocator + Copy, B: Allocator + Copy>(
    seen: &mut NumberList<B>,
    graph: &Graph<A>,
    roots: &[ObjNo],
) -> Result<(), AllocError>
    ensures { OnOk result (seen.new ≡ added_all graph.now.objects seen.old roots.now) }
{
    for root in roots {
        add(seen, graph, *root)?;
    }
    Ok(())
}

// Where a path may go on to from the object of this number.
fn add_targets<A: Allocator + Copy, B: Allocator + Copy>(
    seen: &mut NumberList<B>,
    graph: &Graph<A>,
    no: ObjNo,
    allow: Allow,
) -> Result<(), AllocError>
    ensures { OnOk result (seen.new
        ≡ added_all graph.now.objects seen.old (targets_at (allowed allow) graph.now.objects no)) }
{
    if let Some(object) = graph.object(no) {
        add_fields(seen, graph, object.fields)?;
        add_if_any(seen, graph, allow.referent(object.link))?;
    }
    Ok(())
}

// Where a path may go on to through the object of this number, if it is a reference.
fn add_referent<A: Allocator + Copy, B: Allocator + Copy>(
    seen: &mut NumberList<B>,
    graph: &Graph<A>,
    no: ObjNo,
    allow: Allow,
) -> Result<(), AllocError>
    ensures { OnOk result (seen.new ≡ added_all graph.now.objects seen.old
        (searched_referents (allowed allow) (object_at graph.now.objects no))) }
{
    match graph.object(no) {
        Some(object) => add_if_any(seen, graph, allow.referent(object.link)),
        None => Ok(()),
    }
}

/// Goes on to all objects that paths lead to, where they go through no other references than these. What the fields of
/// the first `closed` hold was seen before, so that each field is looked at once, however often a search goes on.
pub(crate) fn go_on<A: Allocator + Copy, B: Allocator + Copy>(
    seen: &mut NumberList<B>,
    graph: &Graph<A>,
    allow: Allow,
    closed: usize,
) -> Result<(), AllocError>
    requires { IsSearched (allowed allow) graph.now seen.old closed 0 }
    ensures reached { OnOk result (ArePathEnds (allowed allow) graph.now seen.new) }
    ensures kept { OnOk result (take (length seen.old) seen.new ≡ seen.old) }
{
    let mut next = 0;
    while next < seen.len() {
        let no = seen.as_slice()[next];
        if next < closed {
            add_referent(seen, graph, no, allow)?;
        } else {
            add_targets(seen, graph, no, allow)?;
        }
        next += 1;
    }
    Ok(())
}
