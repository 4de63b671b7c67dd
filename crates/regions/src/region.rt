// Region records as they are lent. For each of four sides (bottom 0, right 1, top 2, left 3) how many edges, then the places for them.
ghost use Rattle.std.specs.Prelude.{◌≡◌};
ghost use Rattle.regions.specs.Region.{places, side, across, empty_pair};

pub const MAX_REGIONS: usize = 128;

pub const MAX_EDGES: usize = 256;

// How many edges fit on a side.
pub const PLACES: u16 = 32;

// Their number stands before them.
// stays: C lends records as one list of numbers, so sides and records are found by their sizes, here and wherever one is read
pub const SIDE_SIZE: usize = PLACES as usize + 1;

pub const RECORD_SIZE: usize = 4 * SIDE_SIZE;

// The edges of side k of the record that stands first: as many as there are, where the list ends before them.
pub fn side<'a>(records: &'a [u16], k: u32) -> &'a [u16]
    ensures { result.now ≡ side places records.now k }
{
    let at = k as usize * SIDE_SIZE;
    if at >= records.len() {
        return &records[..0];
    }
    let n = usize::from(records[at]);
    let start = at + 1;
    let end = start + n;
    if end > records.len() {
        return &records[start..];
    }
    &records[start..end]
}

// The side opposite to one, sides counted over all records.
pub fn opposite(side: usize) -> usize
    ensures { result ≡ across side }
{
    if side % 4 < 2 { side + 2 } else { side - 2 }
}

// Whether side k of the record that stands first has no edges, and the opposite one has none.
pub fn empty_pair(records: &[u16], k: u32) -> bool
    ensures { result ≡ empty_pair places records.now k }
{
    let edges = side(records, k);
    let others = side(records, opposite(k as usize) as u32);
    edges.is_empty() && others.is_empty()
}
