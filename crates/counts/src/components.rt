// The components of the farm: edges that constraints join, one after the other, have one label. A search never leaves the component of its start, so
// what it gave holds until a move touches that component.
ghost use Rattle.std.specs.Prelude.{◌≡◌, ◌*◌, ◌<◌, length, get_or};
ghost use Rattle.counts.specs.Cost.{range_delta, by_ranges};
ghost use Rattle.counts.specs.inner.Tables.{no_constraint, max_constraints};
ghost use Rattle.counts.specs.inner.Components.{Labels, MayJoin, MarksLent, LabelsLent, Renamed, MarksJoined, AllJoined, AllTaken};
ghost use Rattle.counts.specs.inner.Components.{renamed as renamed_to, EdgeRefreshed, Refreshed, MayRefreshEdge, MayRefresh};
ghost use Rattle.regions.specs.Accept.{max_edges};

use crate::cost::set_costs;
use crate::limits::{CHANGES, EDGE_SLOTS, MAX_CONSTRAINTS, NO_CONSTRAINT};
use crate::search::wide;
use regions::region::MAX_EDGES;

// ---- labels

fn renamed(label: u16, from: u16, to: u16) -> u16
    ensures { result ≡ renamed_to from to label }
{
    if label == from {
        return to;
    }
    label
}

// Mark `from` becomes `to`, wherever it stands.
fn rename(marks: &mut [u16; MAX_CONSTRAINTS], from: u16, to: u16)
    requires { length marks.old ≡ max_constraints }
    ensures { Renamed marks.old from to marks.new }
{
    let mut i = 0usize;
    while i < MAX_CONSTRAINTS {
        marks[i] = renamed(marks[i], from, to);
        i += 1;
    }
}

// The two constraints of edge e, if it has two, get one mark.
fn join_at(incident: &[u16; EDGE_SLOTS], e: usize, marks: &mut [u16; MAX_CONSTRAINTS])
    requires { MayJoin e marks.old }
    ensures { MarksJoined incident.now e marks.old marks.new }
{
    let a = wide(incident[e * 2]);
    let b = wide(incident[e * 2 + 1]);
    if a >= NO_CONSTRAINT {
        return;
    }
    if b >= NO_CONSTRAINT {
        return;
    }
    let from = marks[b];
    let to = marks[a];
    if from == to {
        return;
    }
    rename(marks, from, to);
}

// The constraints of each of n edges get one mark.
fn join_constraints(incident: &[u16; EDGE_SLOTS], n: usize, marks: &mut [u16; MAX_CONSTRAINTS])
    requires { MarksLent n marks.old }
    ensures { AllJoined n incident.now marks.new }
{
    let mut e = 0usize;
    while e < n {
        join_at(incident, e, marks);
        e += 1;
    }
}

// Every constraint has a mark of its own.
fn number_constraints(marks: &mut [u16; MAX_CONSTRAINTS])
    requires { length marks.old ≡ max_constraints }
    ensures { length marks.new ≡ max_constraints }
{
    let mut i = 0usize;
    while i < MAX_CONSTRAINTS {
        marks[i] = i as u16;
        i += 1;
    }
}

// The label of edge e is the mark of its constraints; an edge in no constraint is a component of its own.
fn label_of(incident: &[u16; EDGE_SLOTS], marks: &[u16; MAX_CONSTRAINTS], e: usize) -> u16
    requires { e < max_edges }
    ensures { let first = get_or incident.now (e * 2) 0 in
        (first < no_constraint → result ≡ get_or marks.now first 0) }
{
    let a = wide(incident[e * 2]);
    if a < NO_CONSTRAINT {
        return marks[a];
    }
    (NO_CONSTRAINT + e) as u16
}

fn take_marks(
    incident: &[u16; EDGE_SLOTS],
    n: usize,
    marks: &[u16; MAX_CONSTRAINTS],
    labels: &mut [u16; MAX_EDGES],
)
    requires { LabelsLent n labels.old }
    ensures { AllTaken n incident.now marks.now labels.new }
{
    let mut e = 0usize;
    while e < n {
        labels[e] = label_of(incident, marks, e);
        e += 1;
    }
}

// The labels of n edges.
pub(crate) fn label_edges(incident: &[u16; EDGE_SLOTS], n: usize, labels: &mut [u16; MAX_EDGES])
    requires { LabelsLent n labels.old }
    ensures { Labels n incident.now labels.new }
{
    let mut marks = [0; MAX_CONSTRAINTS];
    number_constraints(&mut marks);
    join_constraints(incident, n, &mut marks);
    take_marks(incident, n, &marks, labels);
}

// ---- what a move touches

// Edge e, with count s, gets new costs if it is of this component, and what its starts gave is forgotten.
fn refresh_edge(
    label: u16,
    component: u16,
    s: u32,
    least: f64,
    most: f64,
    e: usize,
    costs: &mut [f64; CHANGES],
    allowed: &mut [bool; CHANGES],
    known: &mut [bool; CHANGES],
)
    requires { MayRefreshEdge e costs.old allowed.old known.old }
    ensures { EdgeRefreshed label component s (range_delta s least most) e
        costs.old allowed.old known.old costs.new allowed.new known.new }
{
    if label != component {
        return;
    }
    set_costs(s, least, most, e, costs, allowed);
    known[e * 2 + 1] = false;
    known[e * 2] = false;
}

// The same of every edge.
pub(crate) fn refresh_component(
    labels: &[u16; MAX_EDGES],
    component: u16,
    counts: &[u32],
    least: &[f64],
    most: &[f64],
    costs: &mut [f64; CHANGES],
    allowed: &mut [bool; CHANGES],
    known: &mut [bool; CHANGES],
)
    requires { MayRefresh counts.now least.now most.now costs.old allowed.old known.old }
    ensures { Refreshed (length counts.now) labels.now component
        counts.now (by_ranges least.now most.now)
        costs.old allowed.old known.old costs.new allowed.new known.new }
{
    let mut e = 0usize;
    while e < counts.len() {
        let label = labels[e];
        let s = counts[e];
        let low = least[e];
        let high = most[e];
        refresh_edge(label, component, s, low, high, e, costs, allowed, known);
        e += 1;
    }
}
