// `build_graph`: the tables that tell the search which constraints hold an edge. In 000 these are lists of lists; here the constraints stay in
// the records, and each edge has two slots, since test 6 turns away an edge in over two constraints. Tests 1 and 3 to 5 come before.
// At slot 2 * e + k, k being 0 or 1, `incident` has the number of the k-th constraint that holds edge e, NO_CONSTRAINT if there is none, and
// `own` the side on which e stands in it. Sides are counted over all records: side s starts at s * SIDE_SIZE, with its number of edges, and
// constraint ci has the sides ci / 2 * 4 + ci % 2 and, two further on, the opposite one.
ghost use Rattle.std.specs.Prelude.{◌≡◌, List, [], ◌∷◌, ℕ, ◌≤◌, ◌<◌, length, get_or};
ghost use Rattle.base.specs.Refusal.{outcome};
ghost use Rattle.regions.specs.Region.{Constraint, incidence};
ghost use Rattle.regions.specs.Accept.{overused_test, max_edges};
ghost use Rattle.counts.specs.inner.Tables.{the_graph, edges_on};
ghost use Rattle.counts.specs.inner.Graph.{MayPlaceEdge, MayPlaceSide, MayPlace, MayBuild, Placed, Filled, Built};

use crate::limits::EDGE_SLOTS;
use base::refusal::Refusal;
use regions::region::{MAX_EDGES, RECORD_SIZE, SIDE_SIZE};

// Edge e stands on side s of constraint ci: both go to its next slot. An edge in over two constraints is only counted, for test 6.
fn place_edge(
    incident: &mut [u16; EDGE_SLOTS],
    own: &mut [u16; EDGE_SLOTS],
    uses: &mut [u16; MAX_EDGES],
    ci: usize,
    s: usize,
    e: usize,
)
    requires { MayPlaceEdge incident.old own.old uses.old ci s e }
    ensures { Placed ci s (e ∷ [])
        incident.old own.old uses.old incident.new own.new uses.new }
{
    let n = uses[e] as usize;
    uses[e] = (n + 1) as u16;
    if n >= 2 {
        return;
    }
    let p = e * 2 + n;
    incident[p] = ci as u16;
    own[p] = s as u16;
}

// The edges of side s, in listed order.
fn place_side(
    regions: &[u16],
    incident: &mut [u16; EDGE_SLOTS],
    own: &mut [u16; EDGE_SLOTS],
    uses: &mut [u16; MAX_EDGES],
    ci: usize,
    s: usize,
)
    requires { MayPlaceSide regions.now incident.old own.old uses.old ci s }
    ensures { Placed ci s (edges_on regions.now s)
        incident.old own.old uses.old incident.new own.new uses.new }
{
    let start = s * SIDE_SIZE;
    let count = regions[start] as usize;
    let mut j = 0;
    while j < count {
        let e = regions[start + 1 + j] as usize;
        place_edge(incident, own, uses, ci, s, e);
        j += 1;
    }
}

// Constraints in region order, so that the slots of an edge hold its constraints rising.
fn place_constraints(
    regions: &[u16],
    incident: &mut [u16; EDGE_SLOTS],
    own: &mut [u16; EDGE_SLOTS],
    uses: &mut [u16; MAX_EDGES],
)
    requires { MayPlace regions.now incident.old own.old uses.old }
    ensures { let g = the_graph regions.now in
        Filled g g incident.new own.new uses.new }
{
    let m = regions.len() / RECORD_SIZE * 2;
    let mut ci = 0;
    while ci < m {
        let s = ci / 2 * 4 + ci % 2;
        place_side(regions, incident, own, uses, ci, s);
        place_side(regions, incident, own, uses, ci, s + 2);
        ci += 1;
    }
}

// 6: the lowest edge in over two constraints, by the numbers counted in `uses`: of whatever graph they are the numbers, the answer is its test.
fn check_overused(uses: &[u16; MAX_EDGES], n: usize) -> Result<(), Refusal>
    requires { n ≤ max_edges }
    ensures { (g : List Constraint) → ((y : ℕ) → y < n → get_or uses.now y 0 ≡ length (incidence g y))
        → outcome result ≡ overused_test g 0 n }
{
    let mut e = 0;
    while e < n {
        if uses[e] > 2 {
            return Err(Refusal::EdgeOverused(e as u32));
        }
        e += 1;
    }
    Ok(())
}

// For n edges, on records that passed tests 1 and 3 to 5. If 6 passes too, the tables are those of the search.
pub(crate) fn build_graph(
    regions: &[u16],
    n: usize,
    incident: &mut [u16; EDGE_SLOTS],
    own: &mut [u16; EDGE_SLOTS],
) -> Result<(), Refusal>
    requires { MayBuild n regions.now incident.old own.old }
    ensures { Built n regions.now incident.new own.new (outcome result) }
{
    let mut uses = [0; MAX_EDGES];
    place_constraints(regions, incident, own, &mut uses);
    check_overused(&uses, n)
}
