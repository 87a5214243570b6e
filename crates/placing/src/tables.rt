// The sheet as words: for each node the word of its labels, and whether it has 255.
ghost use Rattle.std.specs.Prelude.{◌≡◌, ℕ, ◌≤◌, ◌<◌, length};
ghost use Rattle.integers.specs.Words.{word_of, Words};
ghost use Rattle.instance.specs.Sheet.{instance_of};
ghost use Rattle.placing.specs.Words.{entry, Laid};
ghost use Rattle.placing.specs.Labels.{Labels, Worded};

use crate::words::bit_of;
use instance::Sheet;

// The nodes below `count`: the word of each one's labels below 64, and whether it has 255.
// Kept: two arrays and no array of structs: nearly every law is of the words alone, and of structs it would name a field each time.
#[derive(Drop)]
pub(crate) struct Nodes {
    pub count: usize,
    pub sets: [u64; 64],
    pub own: [bool; 64],
    ghost few: { count ≤ 64 },
    ghost fit: { Words sets },
}

// The labels of a node below 64 as a word, and whether it has 255.
#[derive(Clone, Copy)]
pub(crate) struct Row {
    pub word: u64,
    pub own: bool,
}

// The word of labels below 64.
#[tactic(auto, using(crate::proofs::Laying::word_more), unfolding(integers::specs::Words::word_of))]
fn word_of(labels: &[u8]) -> u64
    requires { (k : ℕ) → k < length labels.now → entry labels.now k < 64 }
    ensures { result ≡ word_of (entry labels.now) (length labels.now) }
{
    let mut word = 0;
    for label in labels {
        word |= bit_of(*label);
    }
    word
}

// The labels of one node. Labels rise, so 255 is the last.
#[tactic(auto, using(crate::proofs::Laying::byte_is, crate::proofs::Laying::word_part))]
fn row_of(labels: &[u8]) -> Row
    requires { Labels (entry labels.now) (length labels.now) }
    ensures { Worded (entry labels.now) (length labels.now) result.word result.own }
{
    // Kept: 255 by itself; `exclusive` takes a label as a usize, and would be the same comparison of a byte made wider.
    let own = labels[labels.len() - 1] == 255;
    let word = word_of(&labels[..labels.len() - usize::from(own)]);
    Row { word, own }
}

// All nodes.
pub(crate) fn lay_words(sheet: &Sheet) -> Nodes
    ensures { (result.count ≡ sheet.now.nodes) × Laid (instance_of sheet.now.bytes.now) sheet.now.nodes result.sets result.own }
{
    let mut nodes = Nodes {
        count: sheet.nodes,
        sets: [0; 64],
        own: [false; 64],
    };
    for u in 0..sheet.nodes {
        let row = row_of(sheet.labels_of(u));
        nodes.sets[u] = row.word;
        nodes.own[u] = row.own;
    }
    nodes
}
