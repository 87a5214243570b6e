// Rows of costs: the least of a row, a share of a distance, and whether costs lie within the limit.
ghost use Rattle.std.specs.Prelude.{◌≡◌, ◌*◌, ◌^◌, ◌/◌, ◌<◌, ◌≤◌, true, length, pos, ◌-ℤ◌, nat_lt, slice_index_or, unsigned_abs};
ghost use Rattle.integers.specs.Least.{min_ℤ, least_from, least_of};
ghost use Rattle.integers.specs.Share.{nearest, share};
ghost use Rattle.integers.specs.Sum.{Within};
ghost use Rattle.integers.specs.Places.{every};
ghost use Rattle.integers.specs.Checks.{within};
ghost use Rattle.rules.specs.Calls.{cost_limit};

use crate::limit::Limit;
use crate::share::Share;

// The less of a cost of a row and the best so far.
// Kept: it asks that the place is in the row, and so do others here, as an index into a slice does.
#[tactic(auto, using(crate::proofs::RowLaws::less_back, integers::proofs::Bits::answer))]
pub(crate) fn less_at(row: &[i64], i: usize, best: i64) -> i64
    requires { i < length row.now }
    ensures { result ≡ min_ℤ (slice_index_or row.now i (pos 0)) best }
{
    best.min(row[i])
}

// The least of `start` and the costs of a row, one after the other.
#[tactic(auto, using(crate::proofs::RowLaws::less_back, integers::proofs::Bits::answer, integers::proofs::Least::least_done, integers::proofs::Least::least_step))]
fn least_in_turn(row: &[i64], start: i64) -> i64
    ensures { result ≡ least_from start row.now }
{
    let mut best = start;
    for cost in row {
        best = best.min(*cost);
    }
    best
}

// The least of `start` and the costs of a row: four side by side, which wait for each other less, then the rest.
pub(crate) fn least(row: &[i64], start: i64) -> i64
    ensures { result ≡ least_from start row.now }
{
    let mut a = start;
    let mut b = start;
    let mut c = start;
    let mut d = start;
    let (fours, rest) = row.as_chunks::<4>();
    for four in fours {
        a = a.min(four[0]);
        b = b.min(four[1]);
        c = c.min(four[2]);
        d = d.min(four[3]);
    }
    least_in_turn(rest, a.min(b).min(c.min(d)))
}

// Above every cost: the least of no costs.
// Kept: a minimum starts from it; as an `Option` each cost would first ask whether there is a least so far.
pub(crate) const UNBOUNDED: i64 = i64::MAX;

// The least cost of a row. That the first counts twice changes nothing.
#[tactic(auto, using(crate::proofs::LeastLaws::least_whole, integers::proofs::Bits::answer))]
pub(crate) fn least_of(row: &[i64]) -> i64
    requires { 0 < length row.now }
    ensures { result ≡ least_of row.now }
{
    least(row, row[0])
}

// A share of `n`, to the nearest whole number. An exact half goes to the even one: it counts as more where the quotient is odd.
#[tactic(auto, using(integers::proofs::Share::nearest_by))]
fn nearest_to(n: u64, share: Share) -> u64
    requires { n ≤ 2 ^ 41 }
    ensures { result ≡ nearest n share.parts }
{
    let by = u64::from(share.parts);
    let quotient = n / by;
    let rest = n % by;
    let next = quotient + 1;
    if by < 2 * rest + quotient % 2 {
        next
    } else {
        quotient
    }
}

// A share of how far a cost is above another, or below it. Most shares are 1, and a division takes long.
// Kept: that a cost is within the limit is asked for here and by those that call it for one cost. It is read from a buffer for this one call; a struct around it would be made and opened at each.
pub(crate) fn share_of(cost: i64, low: i64, part: Share) -> i64
    requires { (unsigned_abs cost ≤ cost_limit) × (unsigned_abs low ≤ cost_limit) }
    ensures { result ≡ share (cost -ℤ low) part.parts }
{
    let apart = cost - low;
    if part.parts == 1 {
        return apart;
    }
    let size = nearest_to(apart.unsigned_abs(), part).cast_signed();
    if apart < 0 { -size } else { size }
}

// Whether a cost lies within the limit. The smallest i64 is no special case.
#[tactic(auto, unfolding(integers::specs::Checks::within))]
pub(crate) fn in_range(cost: i64, limit: Limit) -> bool
    ensures { result ≡ within limit.most cost }
{
    cost.unsigned_abs() <= limit.most
}

// From here on the highest bit is set.
pub(crate) const OUT: u64 = 0x8000_0000_0000_0000;

// At least `OUT` if a cost passes the limit. Joined by `|`, many costs take one test.
// Kept: a cost and the limit one by one, here and in three like it: a cost is an element of a buffer.
#[tactic(auto, using(crate::proofs::ExcessLaws::apart_limit))]
pub(crate) fn excess(cost: i64, limit: Limit) -> u64
    ensures { nat_lt result (2 ^ 63) ≡ within limit.most cost }
{
    let bits = cost.cast_unsigned();
    bits.wrapping_add(limit.most) | limit.most.wrapping_sub(bits)
}

// Whether each cost lies within the limit, by looking at each. It does not stop at the first that does not, so that several are tested at a time.
fn each_in_range(costs: &[i64], limit: Limit) -> bool
    ensures { result ≡ every (within limit.most) costs.now }
{
    let mut all = 0;
    for cost in costs {
        all |= excess(*cost, limit);
    }
    all < OUT
}

// Below twice a limit only if a cost lies within it.
fn raised(cost: i64, limit: Limit) -> u64
    ensures { result < 2 * limit.most → unsigned_abs cost ≤ limit.most }
{
    cost.cast_unsigned().wrapping_add(limit.most)
}

// A quick test, which may fail for costs within half the limit as well: if it does not, each cost is, so that two add up to no more than the limit.
// Kept: beside `all_in_range`, which says for each list whether all its costs are within the limit; this one promises one side, of another bound.
pub(crate) fn all_half(costs: &[i64], limit: Limit) -> bool
    ensures { result ≡ true → Within (limit.most / 2) costs.now }
{
    let half = limit.half();
    let mut all = 0;
    for cost in costs {
        all |= raised(*cost, half);
    }
    all < 2 * half.most
}

// Whether each cost lies within the limit, at once if none passes half of it.
pub(crate) fn all_in_range(costs: &[i64], limit: Limit) -> bool
    ensures { result ≡ every (within limit.most) costs.now }
{
    all_half(costs, limit) || each_in_range(costs, limit)
}
