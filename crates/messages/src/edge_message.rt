// Messages between one node's costs and one edge's table: what is given, whether both stay within the limit, and the moves. Document 01, kinds 1 and 2.
ghost use Rattle.std.specs.Prelude.{◌≡◌, false, ℕ, ◌^◌, ◌<◌, ◌≤◌, length, replicate, pos, ◌+ℤ◌, ◌<ℤ◌, nat_lt, slice_index_or, neg_ℤ, unsigned_abs};
ghost use Rattle.integers.specs.Sum.{Within};
ghost use Rattle.integers.specs.Places.{every, tabulate};
ghost use Rattle.integers.specs.Checks.{within};
ghost use Rattle.rules.specs.Calls.{cost_limit};
ghost use Rattle.messages.specs.EdgeMessage.{by_rows, moved_row, moved_cells, moved_line, Shape, Line, unbounded, turned_least, node_amounts, edge_amounts};
ghost use Rattle.messages.specs.declared.records.Flow.TheVariants.{FromNode, ToNode};
ghost use Rattle.messages.specs.EdgeRecord.{Joined, CostsWithin};

use crate::amounts::Amounts;
use crate::end::End;
use crate::limit::Limit;
use crate::records::Flow;
use crate::rows::{OUT, UNBOUNDED, all_half, excess, least_of, share_of};
use crate::share::Share;

// What the least of a position gives down to the least of all, turned round, and 0 if it has no usable cell.
// Kept: that costs are within the limit is asked for here, in `turn_all` and where one is tested, as in `share_of`.
// Kept: no `Option` for a position without a usable cell, as the array of the leasts becomes that of the amounts.
#[tactic(auto, using(integers::proofs::Bits::answer, integers::proofs::Share::share_back), unfolding(crate::specs::EdgeMessage::turned_least))]
fn turned_least(cost: i64, low: i64, share: Share) -> i64
    requires { (cost <ℤ unbounded → unsigned_abs cost ≤ cost_limit) × (unsigned_abs low ≤ cost_limit) }
    ensures { result ≡ turned_least cost low share.parts }
{
    if cost < UNBOUNDED {
        share_of(low, cost, share)
    } else {
        0
    }
}

// What each least of a position gives.
fn turn_all(least: &mut [i64], low: i64, share: Share)
    requires low_bound { unsigned_abs low ≤ cost_limit }
    requires by_index { (k : ℕ) → k < length least.old → slice_index_or least.old k (pos 0) <ℤ unbounded → unsigned_abs (slice_index_or least.old k (pos 0)) ≤ cost_limit }
    ensures { least.new ≡ tabulate (length least.old) (λ k. turned_least (slice_index_or least.old k (pos 0)) low share.parts) }
{
    for cost in least.iter_mut() {
        *cost = turned_least(*cost, low, share);
    }
}

// At least `OUT` if a cost that receives an amount passes the limit.
fn excess_with(cost: i64, amount: i64, limit: Limit) -> u64
    requires { (unsigned_abs cost ≤ cost_limit) × (unsigned_abs amount ≤ 2 ^ 41) }
    ensures { nat_lt result (2 ^ 63) ≡ within limit.most (cost +ℤ amount) }
{
    excess(cost + amount, limit)
}

// At least `OUT` if a cost that gives an amount away does.
fn excess_without(cost: i64, amount: i64, limit: Limit) -> u64
    requires { (unsigned_abs cost ≤ cost_limit) × (unsigned_abs amount ≤ 2 ^ 41) }
    ensures { nat_lt result (2 ^ 63) ≡ within limit.most (cost +ℤ neg_ℤ amount) }
{
    excess(cost - amount, limit)
}

// At least `OUT` if a cell of the k-th row of a table that receives its amount does: by rows one amount serves all, by columns each has its own.
// Kept: a row is asked, here and in `move_line`, to be a `Line`, since it is cut from a buffer where it is gone through, and a struct around it would be made and opened at each cut.
fn excess_line(line: &[i64], k: usize, end: End, amounts: Amounts, limit: Limit) -> u64
    requires { Line k line.now }
    ensures { nat_lt result (2 ^ 63) ≡ every (within limit.most) (moved_line (by_rows end) k amounts.entry.each.now line.now) }
{
    let mut all = 0;
    for (j, cost) in line.iter().enumerate() {
        let amount = amounts.each[end.either(k, j)];
        all |= excess_with(*cost, amount, limit);
    }
    all
}

// Adds to each cell of the k-th row of a table its amount.
// Kept: the end and the amounts one by one, here and in the tests: a node's row gives the same amounts, and has no end. The limit is the call's.
// Kept: it, `take_line` and `move_cells` are over slices, and no methods of a struct that holds them as `&mut`. Tried; of a buffer of which a part was lent to such a struct the proof then knows no more than its length.
fn move_line(line: &mut [i64], k: usize, end: End, amounts: Amounts)
    requires { Line k line.old }
    ensures { line.new ≡ moved_line (by_rows end) k amounts.entry.each.now line.old }
{
    for (j, cost) in line.iter_mut().enumerate() {
        let amount = amounts.each[end.either(k, j)];
        *cost = *cost + amount;
    }
}

// Takes from each cost of a node's row its amount.
pub(crate) fn take_line(line: &mut [i64], amounts: Amounts)
    requires few { length line.old ≤ 16 }
    requires within { Within cost_limit line.old }
    ensures { line.new ≡ moved_row amounts.entry.each.now line.old }
{
    for (k, cost) in line.iter_mut().enumerate() {
        let amount = amounts.each[k];
        *cost = *cost - amount;
    }
}

// Adds to each cell of an edge's table the amount at its position.
// Kept: the cells are asked to be within the limit: a `Joint` has that promise of what it reads, and what is written has it no longer.
pub(crate) fn move_cells(cells: &mut [i64], width: usize, height: usize, end: End, amounts: Amounts)
    requires shape { Shape width height cells.old }
    requires within { Within cost_limit cells.old }
    ensures { cells.new ≡ moved_cells (by_rows end) width amounts.entry.each.now cells.old }
{
    // Kept: a row by its place, since a proof knows nothing of what is written through `chunks_exact_mut`.
    for k in 0..height {
        let a = k * width;
        let b = a + width;
        move_line(&mut cells[a..b], k, end, amounts);
    }
}

// A node's row of costs and the table of an edge that it ends: at which end it stands, and the labels of this end and of the other.
#[derive(Drop)]
pub(crate) struct Joint<'a> {
    pub row: &'a [i64],
    pub cells: &'a [i64],
    pub end: End,
    pub own: &'a [u8],
    pub other: &'a [u8],
    ghost joined: { Joined row.now cells.now (by_rows end) own.now other.now },
}

impl Joint<'_> {
    ghost use Rattle.messages.specs.Joints.{columns, rows, given_in, cells_with, fit_in, Above};

    // How many columns the table has: as many as the higher end has positions.
    pub(crate) fn width(&self) -> usize
        ensures { result ≡ columns self.now }
    {
        self.end.either(self.other.len(), self.own.len())
    }

    // How many rows.
    pub(crate) fn height(&self) -> usize
        ensures { result ≡ rows self.now }
    {
        self.end.either(self.own.len(), self.other.len())
    }

    // Whether each cell that receives the amount at its position stays within the limit.
    fn each_cell_fits(&self, amounts: Amounts, limit: Limit) -> bool
        ensures { result ≡ every (within limit.most) (cells_with self.now amounts.entry.each.now) }
    {
        let width = self.width();
        let height = self.height();
        let mut all = 0;
        // Kept: a row by its place, as where it is moved (`move_cells`), so that both share one law of a row.
        for k in 0..height {
            let a = k * width;
            let b = a + width;
            all |= excess_line(&self.cells[a..b], k, self.end, amounts, limit);
        }
        all < OUT
    }

    // The same, at once if no cell and no amount passes half the limit.
    fn cells_fit(&self, amounts: Amounts, limit: Limit) -> bool
        ensures { result ≡ every (within limit.most) (cells_with self.now amounts.entry.each.now) }
    {
        // Kept: the reference by itself, as the proof does not follow a part that is lent of a field.
        let each = amounts.each;
        if all_half(&each[..self.own.len()], limit) && all_half(self.cells, limit) {
            return true;
        }
        self.each_cell_fits(amounts, limit)
    }

    // Whether the node's costs stay within the limit as they give the amounts.
    fn row_fits(&self, amounts: Amounts, limit: Limit) -> bool
        ensures { result ≡ every (within limit.most) (moved_row amounts.entry.each.now self.now.row.now) }
    {
        let mut all = 0;
        for (k, cost) in self.row.iter().enumerate() {
            all |= excess_without(*cost, amounts.each[k], limit);
        }
        all < OUT
    }

    // Kind 1: what each position of the node gives.
    // Kept: the array is the caller's, here and in the three below, and filled in place: made here it would be copied out.
    fn node_amounts(&self, share: Share, each: &mut [i64; 16])
        requires zeros { each.old ≡ replicate 16 (pos 0) }
        ensures { each.new ≡ node_amounts self.now.row.now share.parts }
    {
        let low = least_of(self.row);
        for (k, cost) in self.row.iter().enumerate() {
            each[k] = share_of(*cost, low, share);
        }
    }

    // Kind 2, turned round: what each position of the edge's end gives. Whether an unusable cell was lower than the usable ones of its position.
    fn edge_amounts(&self, share: Share, each: &mut [i64; 16]) -> bool
        requires zeros { each.old ≡ replicate 16 (pos 0) }
        ensures given { each.new ≡ edge_amounts (by_rows self.now.end) self.now.own.now self.now.other.now self.now.cells.now share.parts }
        ensures above { result ≡ false → Above self.now }
    {
        let passed = self.leasts(each);
        let many = self.own.len();
        let low = least_of(&each[..many]);
        turn_all(&mut each[..many], low, share);
        passed
    }

    // Either of both; whether a cell may come to pass the limit. Cells that give fall toward the least usable one: only an unusable one that is lower may.
    fn give(&self, flow: Flow, share: Share, each: &mut [i64; 16]) -> bool
        requires zeros { each.old ≡ replicate 16 (pos 0) }
        ensures given { each.new ≡ given_in self.now flow share.parts }
        ensures above { result ≡ false → (flow ≡ ToNode) × Above self.now }
    {
        match flow {
            Flow::FromNode => {
                self.node_amounts(share, each);
                true
            }
            Flow::ToNode => self.edge_amounts(share, each),
        }
    }

    // What each position gives, and whether the node's costs and the edge's cells stay within the limit. The costs of a node that gives fall toward their least.
    // Kept: one call of each test, so that the compiler puts it here. That the costs are within the limit is asked for: the limit is the call's, and a `Joint` has none.
    pub(crate) fn weigh(&self, flow: Flow, share: Share, limit: Limit, each: &mut [i64; 16]) -> bool
        requires zeros { each.old ≡ replicate 16 (pos 0) }
        requires within { CostsWithin limit.most self.now.row.now self.now.cells.now }
        ensures given { each.new ≡ given_in self.now flow share.parts }
        ensures fits { result ≡ fit_in self.now limit.most (given_in self.now flow share.parts) }
    {
        let rises = self.give(flow, share, each);
        let amounts = Amounts { each };
        (flow == Flow::FromNode || self.row_fits(amounts, limit))
            && (!rises || self.cells_fit(amounts, limit))
    }
}
