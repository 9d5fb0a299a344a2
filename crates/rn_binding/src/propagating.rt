//! What follows from what came in: items and variables, one after another.
ghost use Rattle.std.specs.Prelude.{◌≡◌, OnOk, map};
ghost use Rattle.rn_model.specs.Derivation.{items_of};
ghost use Rattle.rn_binding.specs.link.Parts.{item_of};
ghost use Rattle.rn_binding.specs.link.Passing.{IsGiven, IsFollowed, IsLater};

use crate::bringing::bring;
use crate::edges::edges_of;
use crate::event::{Edge, Event};
use crate::part::Part;
use crate::subject::Subject;
use rn_growing::Growing;
use rn_value::NoMemory;
use std::alloc::Global;

// The items of a binding, and the edges between its events, in order.
#[derive(Clone, Copy)]
struct Graph<'a> {
    subject: Subject<'a>,
    parts: &'a [Part<'a>],
    edges: &'a [Edge],
}

// Which events happened, and those of them whose edges are still to be followed. Each is given by
// the index of the first edge from it.
#[derive(Drop)]
struct Agenda {
    happened: Vec<bool>,
    open: Vec<usize>,
}

impl Agenda {
    fn has(&self, first: usize) -> bool {
        matches!(self.happened.get(first), Some(true))
    }

    // One more that happened.
    fn put(&mut self, first: usize) -> Result<(), NoMemory> {
        if let Some(happened) = self.happened.get_mut(first) {
            *happened = true;
        }
        self.open.push(first)?;
        Ok(())
    }
}

// The index of the first edge from an event, in order, by halving.
fn first_from(edges: &[Edge], event: Event) -> Option<usize> {
    let mut low = 0;
    let mut high = edges.len();
    while low < high {
        let middle = low + (high - low) / 2;
        if edges[middle].from < event {
            low = middle + 1;
        } else {
            high = middle;
        }
    }
    if edges.get(low)?.from == event {
        Some(low)
    } else {
        None
    }
}

// Whether the item at an index is in. Where it may come in, it is brought in.
fn comes_in(
    alloc: Global,
    graph: Graph<'_>,
    growing: &mut Growing<'_>,
    i: usize,
) -> Result<bool, NoMemory>
    requires given { IsGiven graph.subject.system.now graph.subject.binding.now }
    requires headed { graph.subject.headed.now ≡ graph.subject.binding.now.nodes }
    requires followed { IsFollowed graph.subject.system.now graph.subject.binding.now growing.old }
    requires items { map item_of graph.parts.now
        ≡ items_of graph.subject.system.now graph.subject.binding.now }
    ensures { OnOk result (IsLater graph.entry.subject.system.now
        graph.entry.subject.binding.now growing.old growing.new) }
{
    let Some(part) = graph.parts.get(i) else {
        return Ok(false);
    };
    bring(alloc, graph.subject, growing, part)
}

// Whether an event happened by now.
fn happens(
    alloc: Global,
    graph: Graph<'_>,
    growing: &mut Growing<'_>,
    event: Event,
) -> Result<bool, NoMemory>
    requires given { IsGiven graph.subject.system.now graph.subject.binding.now }
    requires headed { graph.subject.headed.now ≡ graph.subject.binding.now.nodes }
    requires followed { IsFollowed graph.subject.system.now graph.subject.binding.now growing.old }
    requires items { map item_of graph.parts.now
        ≡ items_of graph.subject.system.now graph.subject.binding.now }
    ensures { OnOk result (IsLater graph.entry.subject.system.now
        graph.entry.subject.binding.now growing.old growing.new) }
{
    match event {
        Event::In(i) => comes_in(alloc, graph, growing, i),
        Event::Forced(n, x) => {
            let Some(node) = graph.subject.binding.nodes.get(n) else {
                return Ok(false);
            };
            let forced = growing.is_forced(alloc, node.path.as_slice(), x)?;
            Ok(forced)
        }
    }
}

// Looks whether an event happened by now. Where it did, it is put on the agenda, once.
fn look_once(
    alloc: Global,
    graph: Graph<'_>,
    growing: &mut Growing<'_>,
    agenda: &mut Agenda,
    first: usize,
    event: Event,
) -> Result<(), NoMemory>
    requires given { IsGiven graph.subject.system.now graph.subject.binding.now }
    requires headed { graph.subject.headed.now ≡ graph.subject.binding.now.nodes }
    requires followed { IsFollowed graph.subject.system.now graph.subject.binding.now growing.old }
    requires items { map item_of graph.parts.now
        ≡ items_of graph.subject.system.now graph.subject.binding.now }
    ensures { OnOk result (IsLater graph.entry.subject.system.now
        graph.entry.subject.binding.now growing.old growing.new) }
{
    if agenda.has(first) {
        return Ok(());
    }
    if !happens(alloc, graph, growing, event)? {
        return Ok(());
    }
    agenda.put(first)?;
    Ok(())
}

// Looks at an event. Of one from which no edge goes on, an item is brought in where it may come in.
fn look(
    alloc: Global,
    graph: Graph<'_>,
    growing: &mut Growing<'_>,
    agenda: &mut Agenda,
    event: Event,
) -> Result<(), NoMemory>
    requires given { IsGiven graph.subject.system.now graph.subject.binding.now }
    requires headed { graph.subject.headed.now ≡ graph.subject.binding.now.nodes }
    requires followed { IsFollowed graph.subject.system.now graph.subject.binding.now growing.old }
    requires items { map item_of graph.parts.now
        ≡ items_of graph.subject.system.now graph.subject.binding.now }
    ensures { OnOk result (IsLater graph.entry.subject.system.now
        graph.entry.subject.binding.now growing.old growing.new) }
{
    if let Some(first) = first_from(graph.edges, event) {
        return look_once(alloc, graph, growing, agenda, first, event);
    }
    match event {
        Event::In(i) => {
            let _came = comes_in(alloc, graph, growing, i)?;
            Ok(())
        }
        Event::Forced(_, _) => Ok(()),
    }
}

// Looks at an event, unless it is the same as the last.
fn look_at_next(
    alloc: Global,
    graph: Graph<'_>,
    growing: &mut Growing<'_>,
    agenda: &mut Agenda,
    last: Option<Event>,
    event: Event,
) -> Result<(), NoMemory>
    requires given { IsGiven graph.subject.system.now graph.subject.binding.now }
    requires headed { graph.subject.headed.now ≡ graph.subject.binding.now.nodes }
    requires followed { IsFollowed graph.subject.system.now graph.subject.binding.now growing.old }
    requires items { map item_of graph.parts.now
        ≡ items_of graph.subject.system.now graph.subject.binding.now }
    ensures { OnOk result (IsLater graph.entry.subject.system.now
        graph.entry.subject.binding.now growing.old growing.new) }
{
    if last == Some(event) {
        return Ok(());
    }
    look(alloc, graph, growing, agenda, event)
}

// Looks at all events from which edges go on.
fn look_at_all(
    alloc: Global,
    graph: Graph<'_>,
    growing: &mut Growing<'_>,
    agenda: &mut Agenda,
) -> Result<(), NoMemory>
    requires given { IsGiven graph.subject.system.now graph.subject.binding.now }
    requires headed { graph.subject.headed.now ≡ graph.subject.binding.now.nodes }
    requires followed { IsFollowed graph.subject.system.now graph.subject.binding.now growing.old }
    requires items { map item_of graph.parts.now
        ≡ items_of graph.subject.system.now graph.subject.binding.now }
    ensures { OnOk result (IsLater graph.entry.subject.system.now
        graph.entry.subject.binding.now growing.old growing.new) }
{
    let mut last = None;
    for k in 0..graph.edges.len() {
        let event = graph.edges[k].from;
        look_at_next(alloc, graph, growing, agenda, last, event)?;
        last = Some(event);
    }
    Ok(())
}

// Looks at what may follow at once from the event whose first edge has this index.
fn follow(
    alloc: Global,
    graph: Graph<'_>,
    growing: &mut Growing<'_>,
    agenda: &mut Agenda,
    first: usize,
) -> Result<(), NoMemory>
    requires given { IsGiven graph.subject.system.now graph.subject.binding.now }
    requires headed { graph.subject.headed.now ≡ graph.subject.binding.now.nodes }
    requires followed { IsFollowed graph.subject.system.now graph.subject.binding.now growing.old }
    requires items { map item_of graph.parts.now
        ≡ items_of graph.subject.system.now graph.subject.binding.now }
    ensures { OnOk result (IsLater graph.entry.subject.system.now
        graph.entry.subject.binding.now growing.old growing.new) }
{
    for k in first..graph.edges.len() {
        if graph.edges[k].from != graph.edges[first].from {
            return Ok(());
        }
        look(alloc, graph, growing, agenda, graph.edges[k].to)?;
    }
    Ok(())
}

// Follows edges until none is left that an event opens.
fn follow_all(
    alloc: Global,
    graph: Graph<'_>,
    growing: &mut Growing<'_>,
    agenda: &mut Agenda,
) -> Result<(), NoMemory>
    requires given { IsGiven graph.subject.system.now graph.subject.binding.now }
    requires headed { graph.subject.headed.now ≡ graph.subject.binding.now.nodes }
    requires followed { IsFollowed graph.subject.system.now graph.subject.binding.now growing.old }
    requires items { map item_of graph.parts.now
        ≡ items_of graph.subject.system.now graph.subject.binding.now }
    ensures { OnOk result (IsLater graph.entry.subject.system.now
        graph.entry.subject.binding.now growing.old growing.new) }
{
    for _event in 0..graph.edges.len() {
        let Some(first) = agenda.open.pop() else {
            return Ok(());
        };
        follow(alloc, graph, growing, agenda, first)?;
    }
    Ok(())
}

/// Brings in what follows from what is in, along the edges of the binding: each is followed once,
/// when the event from which it goes happened. These items wait. Some may come in still, where no
/// edge leads to them.
pub(crate) fn propagate(
    alloc: Global,
    subject: Subject<'_>,
    growing: &mut Growing<'_>,
    parts: &[Part<'_>],
    pending: &[usize],
) -> Result<(), NoMemory>
    requires given { IsGiven subject.system.now subject.binding.now }
    requires headed { subject.headed.now ≡ subject.binding.now.nodes }
    requires followed { IsFollowed subject.system.now subject.binding.now growing.old }
    requires items { map item_of parts.now ≡ items_of subject.system.now subject.binding.now }
    ensures { OnOk result (IsLater subject.entry.system.now subject.entry.binding.now
        growing.old growing.new) }
{
    if pending.is_empty() {
        return Ok(());
    }
    let edges = edges_of(alloc, subject, parts, pending)?;
    let edges = edges.as_slice();
    let happened = vec![in alloc; false; edges.len()]?;
    let open = Vec::new(alloc);
    let mut agenda = Agenda { happened, open };
    let graph = Graph {
        subject,
        parts,
        edges,
    };
    look_at_all(alloc, graph, growing, &mut agenda)?;
    follow_all(alloc, graph, growing, &mut agenda)
}
