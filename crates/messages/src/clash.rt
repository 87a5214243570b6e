// The unusable cells of an edge: where its two ends have one label that only one node may take. Document 02, wish 2.
ghost use Rattle.std.specs.Prelude.{◌≡◌, ◌≤◌, length};
ghost use Rattle.messages.specs.Clash.{Rising, Skips, bit_at, Masks};

use instance::usable;

// One bit of 64 for a label.
// Kept: it and `mask_of` beside those of `placing`, which are of labels below 64; these are of any label, so that two may share a bit.
fn bit_of(label: u8) -> u64
    ensures { result ≡ bit_at label }
{
    1u64 << (label % 64)
}

// The bits of some labels.
pub(crate) fn mask_of(labels: &[u8]) -> u64
    ensures { Masks labels.now result }
{
    let mut mask = 0;
    for label in labels {
        mask |= bit_of(*label);
    }
    mask
}

// The place at which `label` meets an unusable cell, if there is one, by looking at each.
fn place_of(labels: &[u8], label: u8) -> Option<usize>
    requires { Rising labels.now }
    ensures { Skips labels.now label result }
{
    labels
        .iter()
        .position(|other| !usable(usize::from(label), usize::from(*other)))
}

// The same by the labels' mask: most labels are none of the other end's, and their bit says so at once. The search begins at `from`, past the place of a lower label, as labels rise; where it finds nothing there, it looks at all.
pub(crate) fn clash_from(labels: &[u8], mask: u64, label: u8, from: usize) -> Option<usize>
    requires { Rising labels.now × Masks labels.now mask × (from ≤ length labels.now) }
    ensures { Skips labels.now label result }
{
    if mask & bit_of(label) == 0 {
        return None;
    }
    match place_of(&labels[from..], label) {
        Some(place) => Some(from + place),
        None => place_of(labels, label),
    }
}

// The same by the mask alone, where no lower label's place is at hand.
pub(crate) fn clash(labels: &[u8], mask: u64, label: u8) -> Option<usize>
    requires { Rising labels.now × Masks labels.now mask }
    ensures { Skips labels.now label result }
{
    clash_from(labels, mask, label, 0)
}
