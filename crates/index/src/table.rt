// The table that is the index, filled thing by thing, and its rows.
ghost use Rattle.std.specs.Prelude.{◌≡◌, ◌<◌, ◌≤◌, length};
ghost use Rattle.index.specs.Index.{Things, entered, held, index_of};

use std::marker::Model;

// An index: of each key below 64 the things that have it, rising, at most 64.
#[derive(Clone, Copy)]
pub struct Index {
    // Kept: for each key how many things it has, and then those, in one array: `index_of` promises just these numbers, and one array is cleared at once.
    entries: [u16; 4160],
}

impl Model for Index {
    ghost use Rattle.std.specs.Prelude.{List, ℕ};
    ghost use Rattle.index.specs.Index.{Few};

    ghost Value = { List ℕ };

    ghost view = { λ i. i.entries };

    ghost invariant = { λ i. Few i.entries };

    ghost inverse = { λ l. record { entries = l } };
}

impl Index {
    // The index of things of which the i-th has as its key the byte at `stride` times i. A key from 64 on has no row, a row has the
    // first 64 of its things, only the first 65,536 things count, and with a stride of 0 there are none.
    pub fn of(bytes: &[u8], stride: usize) -> Self
        ensures { result ≡ index_of bytes.now stride }
    {
        let mut entries = [0; 4160];
        for thing in 0..count(bytes.len(), stride) {
            enter(&mut entries, usize::from(bytes[stride * thing]), thing);
        }
        Index { entries }
    }

    // The things that have a key, rising.
    pub fn row(&self, key: usize) -> &[u16]
        requires { key < 64 }
        ensures things { result.now ≡ held self.now key }
        ensures few { length result.now ≤ 64 }
    {
        let at = 65 * key;
        let many = usize::from(self.entries[at]);
        let from = at + 1;
        &self.entries[from..from + many]
    }
}

// How many things some bytes have, one every `stride` bytes: at most 65,536.
fn count(len: usize, stride: usize) -> usize
    ensures { Things len stride result }
{
    if stride == 0 {
        return 0;
    }
    len.div_ceil(stride).min(65_536)
}

// Adds a thing to the row of its key, if there is such a row and it is not full.
// Kept: the array and no `Index`, so that the laws of filling are of lists; the type's promise is shown once, when it is filled.
#[tactic(auto, using(crate::proofs::Filling::entered_full, crate::proofs::Filling::entered_in, crate::proofs::Filling::entered_past))]
fn enter(index: &mut [u16; 4160], key: usize, thing: usize)
    requires { thing < 65_536 }
    ensures { index.new ≡ entered index.old key thing }
{
    if key < 64 {
        let row = 65 * key;
        let many = index[row];
        if many < 64 {
            let at = row + 1 + usize::from(many);
            // Kept: a thing is below 65,536; `try_from` would add a case that cannot happen, and a range of u16 ends one thing early.
            index[at] = thing as u16;
            index[row] = many + 1;
        }
    }
}
