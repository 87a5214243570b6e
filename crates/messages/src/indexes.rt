// The indexes by which a sheet is gone through: of its places by their labels, and of its edges by one of their ends.
ghost use Rattle.std.specs.Prelude.{◌≡◌};
ghost use Rattle.messages.specs.LabelMessage.{Holders};
ghost use Rattle.messages.specs.Indexes.{place_index, edge_index, Ended};

use crate::end::End;
use index::Index;
use instance::Sheet;

// The places by their labels.
pub fn places_by_label(sheet: &Sheet) -> Index
    ensures entries { result ≡ place_index sheet.now.bytes.now }
    ensures rows { Holders sheet.now.bytes.now result }
{
    Index::of(&sheet.bytes[sheet.nodes..sheet.prices], 1)
}

// The edges by one of their ends: every second byte of the pairs.
pub fn edges_by(sheet: &Sheet, end: End) -> Index
    ensures entries { result ≡ edge_index sheet.now.bytes.now end }
    ensures rows { Ended sheet.now.bytes.now end result }
{
    // Kept: `as`, which is how Rust reads a variant's number.
    let from = sheet.ends + end as usize;
    let past = from + 2 * sheet.edges;
    Index::of(&sheet.bytes[from..past], 2)
}
