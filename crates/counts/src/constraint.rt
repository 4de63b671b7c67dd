// Whether the constraints hold for given counts.
ghost use Rattle.std.specs.Prelude.{◌≡◌, ◌≤◌, length, T};
ghost use Rattle.base.specs.Lists.{all};
ghost use Rattle.regions.specs.Region.{places, constraints, graph};
ghost use Rattle.regions.specs.Accept.{records_whole};
ghost use Rattle.counts.specs.inner.Checks.{RecordThere, sum_of_side};
ghost use Rattle.counts.specs.Solver.{constraint_holds};

use regions::region::{RECORD_SIZE, side};

// Sum the counts on one side; none where an edge is out of range. 64 bits hold it: a side has few edges.
fn side_sum(counts: &[u32], edges: &[u16]) -> Option<u64>
    requires { length edges.now ≤ places }
    ensures { result ≡ sum_of_side counts.now edges.now }
{
    let mut total = 0;
    for e in edges {
        total += u64::from(*counts.get(usize::from(*e))?);
    }
    Some(total)
}

// Two opposite sides add up to the same.
fn constraint_holds(counts: &[u32], a: &[u16], b: &[u16]) -> bool
    requires { (length a.now ≤ places) × (length b.now ≤ places) }
    ensures { result ≡ constraint_holds counts.now (record { a = a.entry.now; b = b.now }) }
{
    match (side_sum(counts, a), side_sum(counts, b)) {
        (Some(of_a), Some(of_b)) => of_a == of_b,
        _ => false,
    }
}

// Both constraints of the record that stands first hold.
#[tactic(auto, unfolding(regions::specs::Region::constraints))]
fn region_holds(records: &[u16], counts: &[u32]) -> bool
    requires { RecordThere records.now }
    ensures { result ≡ all (constraint_holds counts.now) (constraints places 1 records.now) }
{
    constraint_holds(counts, side(records, 0), side(records, 2))
        && constraint_holds(counts, side(records, 1), side(records, 3))
}

// Every constraint holds, region by region.
#[tactic(auto, using(crate::proofs::constraint::Laws::holding))]
pub(crate) fn regions_hold(regions: &[u16], counts: &[u32]) -> bool
    requires { T (records_whole places regions.now) }
    ensures { result ≡ all (constraint_holds counts.now) (graph places regions.now) }
{
    for r in 0..regions.len() / RECORD_SIZE {
        if !region_holds(&regions[r * RECORD_SIZE..], counts) {
            return false;
        }
    }
    true
}
