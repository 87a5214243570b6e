// Filling a lent buffer with prices of the sheet.
ghost use Rattle.std.specs.Prelude.{◌≡◌, ◌+◌, ◌*◌, ◌≤◌, length};
ghost use Rattle.integers.specs.Places.{tabulate};
ghost use Rattle.instance.specs.Bytes.{price_at};

use instance::Sheet;

// The prices from `at` on, one for each cost.
pub(crate) fn fill_prices(sheet: &Sheet, at: usize, costs: &mut [i64])
    requires { at + 4 * length costs.old ≤ length sheet.now.bytes.now }
    ensures { costs.new ≡ tabulate (length costs.old) (λ i. price_at sheet.now.bytes.now (at + 4 * i)) }
{
    for (i, cost) in costs.iter_mut().enumerate() {
        *cost = sheet.price_in(at, i);
    }
}
