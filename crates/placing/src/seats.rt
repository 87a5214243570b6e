// Nodes at labels: one takes a label that is free, or leaves the one that it has.
ghost use Rattle.std.specs.Prelude.{◌≡◌, true, ◌^◌, ◌≤◌, ◌<◌, ℕ, set};
ghost use Rattle.std.specs.Int.Bits.{bit_xor};
ghost use Rattle.integers.specs.Words.{bit};
ghost use Rattle.placing.specs.Words.{entry, Linked, Owning, Joined};

use crate::tables::Nodes;
use crate::words::{bit_of, with_label};

// The label that each node takes, 255 for none; the node that holds each label, and the word of that node's labels; the labels that are free, and those that nodes with 255 take.
// Kept: 255 and no Option: a node that has 255 and takes no other label is placed thereby, and an `Option` would have to be turned into 255 in the end.
// Kept: methods that callers go on from say that `nodes` is the same, since a ghost field speaks of one value and not of two.
// Kept: two arrays by label and none of structs, as a search reads the words alone, one after the other.
#[derive(Drop)]
pub(crate) struct Seats<'a> {
    pub nodes: &'a Nodes,
    pub taken: [u8; 64],
    pub holders: [u8; 64],
    pub reach: [u64; 64],
    pub free: u64,
    pub owned: u64,
    ghost linked: { Linked nodes.now.sets taken holders reach free },
    ghost owning: { Owning nodes.now.own holders free owned },
}

impl<'a> Seats<'a> {
    // No node takes a label.
    pub(crate) fn new(nodes: &'a Nodes) -> Seats<'a>
        ensures { (result.nodes.now ≡ nodes.now) × ((u : ℕ) → u < 64 → entry result.taken u ≡ 255) }
    {
        Seats {
            nodes,
            taken: [255; 64],
            holders: [0; 64],
            reach: [0; 64],
            free: u64::MAX,
            owned: 0,
        }
    }

    // Node `u`, which takes no label, takes `l`, which is free and one of its own.
    pub(crate) fn give(&mut self, u: usize, l: u8)
        requires { (u < 64) × (l < 64) × (64 ≤ entry self.old.taken u) × (bit self.old.free l ≡ true) × (bit (entry self.old.nodes.now.sets u) l ≡ true) }
        ensures same { self.new.nodes.now ≡ self.old.nodes.now }
        ensures taken { self.new.taken ≡ set self.old.taken u l }
        ensures reach { self.new.reach ≡ set self.old.reach l (entry self.old.nodes.now.sets u) }
        ensures free { self.new.free ≡ bit_xor self.old.free (2 ^ l) }
    {
        let at = usize::from(l);
        self.taken[u] = l;
        // Kept: a node is below 64; `try_from` would add a case that cannot happen.
        self.holders[at] = u as u8;
        self.reach[at] = self.nodes.sets[u];
        let word = bit_of(l);
        self.free ^= word;
        let leaves = self.nodes.own[u];
        if leaves {
            self.owned |= word;
        }
    }

    // Node `u` leaves its label, if it takes one.
    pub(crate) fn leave(&mut self, u: usize)
        requires { u < 64 }
        ensures same { self.new.nodes.now ≡ self.old.nodes.now }
        ensures taken { self.new.taken ≡ set self.old.taken u 255 }
        ensures reach { self.new.reach ≡ self.old.reach }
        ensures free { Joined self.old.free (entry self.old.taken u) self.new.free }
    {
        self.free = with_label(self.free, self.taken[u]);
        // A label that is free is none that a node with 255 takes.
        self.owned = (self.owned | self.free) ^ self.free;
        self.taken[u] = 255;
    }
}
