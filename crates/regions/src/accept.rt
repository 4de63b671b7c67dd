// Which lists of region records are accepted: tests 1, 3, 4 and 5, one function each, in the order of specs/Accept.antt. Test 6 is made on the
// solver's tables.
ghost use Rattle.std.specs.Prelude.{◌≡◌, [], ◌+◌, ◌%◌, ◌≤◌, ◌<◌, length, T};
ghost use Rattle.base.specs.Lists.{member};
ghost use Rattle.base.specs.Refusal.{outcome};
ghost use Rattle.regions.specs.Region.{places, region_count, record_size};
ghost use Rattle.regions.specs.Accept.{sides_fit, records_whole, limits_test, shared_edge, side_test, pair_test, region_test, pairs_test, records_test};

use crate::region::{MAX_EDGES, MAX_REGIONS, PLACES, RECORD_SIZE, SIDE_SIZE, side};
use base::refusal::Refusal;

// No side has more edges than places.
fn sides_fit(regions: &[u16]) -> bool
    requires { length regions.now % record_size places ≡ 0 }
    ensures { result ≡ sides_fit places (region_count places regions.now) regions.now }
{
    // stays: of a record that is not tested yet the number of edges is read, and no side
    for s in 0..regions.len() / SIDE_SIZE {
        if regions[s * SIDE_SIZE] > PLACES {
            return false;
        }
    }
    true
}

// 1: a limit exceeded, or a broken record or list; n is the length of a list with an entry for each edge.
pub fn check_limits(regions: &[u16], n: usize) -> Result<(), Refusal>
    ensures { outcome result ≡ limits_test places n regions.now }
{
    if n > MAX_EDGES
        || regions.len() % RECORD_SIZE != 0
        || regions.len() / RECORD_SIZE > MAX_REGIONS
        || !sides_fit(regions)
    {
        return Err(Refusal::Malformed);
    }
    Ok(())
}

// 3 and 4 along one side: an edge number not below n, or an edge that the side has already.
fn check_side(edges: &[u16], n: usize, region: u32, side: u32) -> Result<(), Refusal>
    ensures { outcome result ≡ side_test n region side [] edges.now }
{
    for (i, e) in edges.iter().enumerate() {
        if usize::from(*e) >= n {
            return Err(Refusal::EdgeOutOfRange(region, side));
        }
        if edges[..i].contains(e) {
            return Err(Refusal::EdgeRepeated(region, side));
        }
    }
    Ok(())
}

// Some edge of a stands in b.
fn has_shared_edge(a: &[u16], b: &[u16]) -> bool
    ensures { result ≡ shared_edge a.now b.now }
{
    for e in a {
        if b.contains(e) {
            return true;
        }
    }
    false
}

// 3, 4 and 5 on two opposite sides, of which a is side `first`.
fn check_pair(a: &[u16], b: &[u16], n: usize, region: u32, first: u32) -> Result<(), Refusal>
    requires { first < 2 }
    ensures { outcome result ≡ pair_test n region first (first + 2) a.now b.now }
{
    let second = first + 2;
    check_side(a, n, region, first)?;
    check_side(b, n, region, second)?;
    if has_shared_edge(a, b) {
        return Err(Refusal::EdgeOnBothSides(region, first));
    }
    Ok(())
}

// The record that stands first: sides 0 and 2, then 1 and 3.
fn check_region(records: &[u16], n: usize, region: u32) -> Result<(), Refusal>
    requires places_in_bounds { record_size places ≤ length records.now }
    requires sides_fit { T (sides_fit places 1 records.now) }
    ensures { outcome result ≡ region_test places n region records.now }
{
    check_pair(side(records, 0), side(records, 2), n, region, 0)?;
    check_pair(side(records, 1), side(records, 3), n, region, 1)
}

// 3, 4 and 5, region by region.
fn check_pairs(regions: &[u16], n: usize) -> Result<(), Refusal>
    requires { T (records_whole places regions.now) }
    ensures { outcome result ≡ pairs_test places n 0 (region_count places regions.now) regions.now }
{
    for r in 0..regions.len() / RECORD_SIZE {
        check_region(&regions[r * RECORD_SIZE..], n, r as u32)?;
    }
    Ok(())
}

// 1, then 3, 4 and 5: what is tested of the records before there are tables.
pub fn check_records(regions: &[u16], n: usize) -> Result<(), Refusal>
    ensures { outcome result ≡ records_test places n regions.now }
{
    check_limits(regions, n)?;
    check_pairs(regions, n)
}
