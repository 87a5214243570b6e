// Storing numbers in a lent buffer, and answering a refusal by its number.
// Kept: C is answered a refusal's number.
ghost use Rattle.std.specs.Prelude.{◌≡◌, length};
ghost use Rattle.instance.specs.Refusal.{refused_in};
ghost use Rattle.exports.specs.Stored.{unlent};

use instance::Refusal;

// No refusal, for C.
pub(crate) const NONE: u8 = 0;

// The number of the refusal, 0 where there is none.
pub(crate) fn code<T: Drop>(answer: Result<T, Refusal>) -> u8
    ensures { result ≡ refused_in answer }
{
    match answer {
        Ok(_) => NONE,
        Err(refusal) => u8::from(refusal),
    }
}

// Of a buffer with another number of places: the refusals that come before 8, and then 8.
#[tactic(auto, using(crate::proofs::StoreLaws::unlent_refused), unfolding(crate::specs::Stored::unlent))]
pub(crate) fn refuse_length<T: Drop>(before: Result<T, Refusal>) -> u8
    ensures { result ≡ unlent (refused_in before) }
{
    match before {
        Ok(_) => u8::from(Refusal::BufferLength),
        Err(before) => u8::from(before),
    }
}

pub(crate) fn copy(values: &[usize], lent: &mut [u64])
    requires { length lent.old ≡ length values.now }
    ensures { lent.new ≡ values.now }
{
    // Kept: by place, as nothing is known of what is written through a `zip` of `iter_mut`.
    for (i, place) in lent.iter_mut().enumerate() {
        // Kept: a usize has 64 bits, and there is no `From`; `try_from` would add a case that cannot happen.
        *place = values[i] as u64;
    }
}
