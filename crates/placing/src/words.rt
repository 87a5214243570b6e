// Sets of labels as the bits of a word.
// Kept: a word is a plain u64, since the tables of words and every law of them (`Words`, `entry`, `bit`) are of numbers; a struct around it would be opened at each place.
ghost use Rattle.std.specs.Prelude.{◌≡◌, true, false, ℕ, ◌^◌, ◌<◌, ◌≤◌};
ghost use Rattle.std.specs.Int.Count.{count_trailing_zeros};
ghost use Rattle.integers.specs.Words.{bit};
ghost use Rattle.placing.specs.Words.{Joined};

// The word of one label.
pub(crate) fn bit_of(l: u8) -> u64
    requires { l < 64 }
    ensures { result ≡ 2 ^ l }
{
    1u64 << l
}

// Whether the word has the label: none has one from 64 on.
#[tactic(auto, using(integers::proofs::Words::bit_small), unfolding(integers::specs::Words::bit))]
pub(crate) fn has(word: u64, l: u8) -> bool
    ensures { result ≡ bit word l }
{
    l < 64 && (word >> l) & 1 == 1
}

// The lowest label of a word that has one.
pub(crate) fn lowest(word: u64) -> u8
    requires { word ≡ 0 → ⊥ }
    ensures { result ≡ count_trailing_zeros 64 word }
{
    // Kept: below 64, as the word is not 0; `try_from` would add a case that cannot happen.
    u64::trailing_zeros(word) as u8
}

// Whether the word has a label below the one that is given.
pub(crate) fn has_below(word: u64, label: u8) -> bool
    ensures { result ≡ false → (x : ℕ) → bit word x ≡ true → label ≤ x }
{
    word != 0 && lowest(word) < label
}

// A word with a label more; none for 255.
pub(crate) fn with_label(word: u64, label: u8) -> u64
    ensures { Joined word label result }
{
    if label < 64 {
        word | bit_of(label)
    } else {
        word
    }
}
