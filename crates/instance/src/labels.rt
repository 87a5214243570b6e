// Which labels no two nodes may take, and which cells are usable by their labels.
ghost use Rattle.std.specs.Prelude.{◌≡◌};
ghost use Rattle.instance.specs.Instance.{exclusive, usable};

// The label of a mark that has vanished.
const VANISHED: usize = 255;

// Whether no two nodes may take a label.
#[tactic(auto, unfolding(crate::specs::Instance::exclusive))]
pub fn exclusive(label: usize) -> bool
    ensures { result ≡ exclusive label }
{
    label != VANISHED
}

// Whether a cell with these two labels may be in a matching: they differ, or any number of nodes may take them.
#[tactic(auto, unfolding(crate::specs::Instance::usable))]
pub fn usable(low: usize, high: usize) -> bool
    ensures { result ≡ usable low high }
{
    (low != high) | !exclusive(low)
}
