// The operations of the solver: each reads its input from the case, calls the proved function, and compares all that it answers and
// leaves with what the case has.
use crate::reading::Case;
use base::refusal::Refusal;
use base::verdict::{Verdict, accepted};
use counts::answer::RoundOutcome;
use counts::ranges::Ranges;
use regions::region::RECORD_SIZE;

// Room for 130 records and 320 edges; no case has more.
const RECORDS: usize = 130 * RECORD_SIZE;

const EDGES: usize = 320;

// A limit is two numbers: whether it is stated, and how much it is.
fn limit(case: &mut Case) -> Option<u32> {
    let stated: bool = case.next();
    let limit: u32 = case.next();
    if stated { Some(limit) } else { None }
}

// Whether the rest of a case of solve is this answer and these counts.
fn is_solved(case: &mut Case, answer: Result<u32, Refusal>, left: &[u32]) -> bool {
    case.is_answer(answer) && case.is_list(left) && case.is_end()
}

pub(crate) fn solve(case: &mut Case) -> bool {
    let mut regions = [0u16; RECORDS];
    let mut ideals = [0.0; EDGES];
    let mut counts = [0u32; EDGES];
    let regions = case.list(&mut regions);
    let ideals = case.list(&mut ideals);
    let counts = case.list(&mut counts);
    let limit = limit(case);
    let answer = counts::solve_counts(regions, ideals, counts, limit);
    is_solved(case, answer, counts)
}

pub(crate) fn solve_within(case: &mut Case) -> bool {
    let mut regions = [0u16; RECORDS];
    let mut least = [0.0; EDGES];
    let mut most = [0.0; EDGES];
    let mut counts = [0u32; EDGES];
    let regions = case.list(&mut regions);
    let least = case.list(&mut least);
    let most = case.list(&mut most);
    let counts = case.list(&mut counts);
    let limit = limit(case);
    let answer = counts::solve_counts_within(regions, Ranges { least, most }, counts, limit);
    is_solved(case, answer, counts)
}

// Whether what comes next is this answer of a round and these counts: no move costs 0.
fn is_rounded(case: &mut Case, answer: Result<RoundOutcome, Refusal>, left: &[u32]) -> bool {
    let none = RoundOutcome {
        cost: None,
        cut: false,
    };
    let (verdict, outcome) = match answer {
        Ok(outcome) => (accepted(), outcome),
        Err(refusal) => (Verdict::from(refusal), none),
    };
    case.is_verdict(verdict)
        && case.is(outcome.cost.is_some())
        && case.is(outcome.cost.unwrap_or(0.0))
        && case.is(outcome.cut)
        && case.is_list(left)
}

// A round by ideals, on the counts as the round before left them.
fn round(case: &mut Case, regions: &[u16], counts: &mut [u32]) -> bool {
    let mut ideals = [0.0; EDGES];
    let ideals = case.list(&mut ideals);
    let limit = limit(case);
    let answer = counts::round(regions, ideals, counts, limit);
    is_rounded(case, answer, counts)
}

// The same within ranges.
fn round_within(case: &mut Case, regions: &[u16], counts: &mut [u32]) -> bool {
    let mut least = [0.0; EDGES];
    let mut most = [0.0; EDGES];
    let least = case.list(&mut least);
    let most = case.list(&mut most);
    let limit = limit(case);
    let answer = counts::round_within(regions, Ranges { least, most }, counts, limit);
    is_rounded(case, answer, counts)
}

// A list of rounds by ideals, or of both kinds: then each round starts with its kind.
pub(crate) fn rounds(case: &mut Case, mixed: bool) -> bool {
    let mut regions = [0u16; RECORDS];
    let mut counts = [0u32; EDGES];
    let regions = case.list(&mut regions);
    let counts = case.list(&mut counts);
    let steps: u32 = case.next();
    for _ in 0..steps {
        let within = mixed && case.next();
        let same = if within {
            round_within(case, regions, counts)
        } else {
            round(case, regions, counts)
        };
        if !same {
            return false;
        }
    }
    case.is_end()
}

pub(crate) fn energy(case: &mut Case) -> bool {
    let mut counts = [0u32; EDGES];
    let mut ideals = [0.0; EDGES];
    let counts = case.list(&mut counts);
    let ideals = case.list(&mut ideals);
    let answer = counts::energy(counts, ideals);
    case.is_answer(answer) && case.is_end()
}

pub(crate) fn hold(case: &mut Case) -> bool {
    let mut regions = [0u16; RECORDS];
    let mut counts = [0u32; EDGES];
    let regions = case.list(&mut regions);
    let counts = case.list(&mut counts);
    let answer = counts::constraints_hold(regions, counts);
    case.is_answer(answer) && case.is_end()
}
