// Answers stored for a caller in C: a function returns the refusal's number, 0 if there is none, and stores places and values. What a refusal has
// no value of is stored as zero.
ghost use Rattle.std.specs.Prelude.{◌≡◌, [], ◌∷◌, unwrap_or};
ghost use Rattle.base.specs.Refusal.{outcome};
ghost use Rattle.juplatsk.specs.inner.Stores.{StoresNumber, StoresFlag, StoresSum, StoresRound, StoresRoot};

use base::refusal::Refusal;
use base::verdict::{Verdict, accepted};
use counts::answer::RoundOutcome;

// The number and the places of an answer.
fn verdict<T: Copy>(answer: Result<T, Refusal>) -> Verdict
    ensures { result ≡ outcome answer }
{
    match answer {
        Ok(_) => accepted(),
        Err(cause) => Verdict::from(cause),
    }
}

// Both places and one value: how many moves a solve made, or how many quads a grid has.
pub(crate) fn store_number(answer: Result<u32, Refusal>, stored: &mut [u32; 3]) -> u32
    ensures { StoresNumber answer result stored.new }
{
    let Verdict {
        number,
        first,
        second,
    } = verdict(answer);
    let value = answer.unwrap_or(0);
    *stored = [first, second, value];
    number
}

// The same of an answer that is yes, 1, or no, 0.
pub(crate) fn store_flag(answer: Result<bool, Refusal>, stored: &mut [u32; 3]) -> u32
    ensures { StoresFlag answer result stored.new }
{
    let Verdict {
        number,
        first,
        second,
    } = verdict(answer);
    *stored = [first, second, u32::from(answer.unwrap_or(false))];
    number
}

// Both places, and a sum.
pub(crate) fn store_sum(
    answer: Result<f64, Refusal>,
    stored: &mut [u32; 2],
    sum: &mut [f64; 1],
) -> u32
    ensures { StoresSum answer result stored.new sum.new }
{
    let Verdict {
        number,
        first,
        second,
    } = verdict(answer);
    *stored = [first, second];
    *sum = [answer.unwrap_or(0.0)];
    number
}

// Both places, whether a move was made, whether a search was cut; and the move's cost.
pub(crate) fn store_round(
    answer: Result<RoundOutcome, Refusal>,
    stored: &mut [u32; 4],
    cost: &mut [f64; 1],
) -> u32
    ensures { StoresRound answer result stored.new cost.new }
{
    let Verdict {
        number,
        first,
        second,
    } = verdict(answer);
    let outcome = answer.unwrap_or(RoundOutcome {
        cost: None,
        cut: false,
    });
    let made = u32::from(outcome.cost.is_some());
    let cut = u32::from(outcome.cut);
    *stored = [first, second, made, cut];
    *cost = [outcome.cost.unwrap_or(0.0)];
    number
}

// The only refusal of a root has no places.
pub(crate) fn store_root(answer: Result<f64, Refusal>, root: &mut [f64; 1]) -> u32
    ensures { StoresRoot answer result root.new }
{
    *root = [answer.unwrap_or(0.0)];
    verdict(answer).number
}
