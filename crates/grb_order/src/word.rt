//! The word of the order: who entered a call, and where that pass recorded it.
ghost use Rattle.std.specs.Prelude.{◌≡◌, ◌^◌, ◌<◌, ◌≤◌};
ghost use Rattle.grb_order.specs.Word.{order_word, number_of, index_of};
ghost use Rattle.grb_order.specs.declared.limits.TheConstants.{MOST_PASSES};

/// How many records a pass may have, and the weight of the pass's number in a word.
const RECORDS: u64 = 1 << 48;

/// The word of a pass and a record: `(number + 1) * 2^48 + index`.
pub(crate) fn order_word(number: u32, index: u64) -> u64
    requires { (number < MOST_PASSES) × (index < 2 ^ 48) }
    ensures { result ≡ order_word number index }
{
    (u64::from(number) + 1) * RECORDS + index
}

/// The number of the pass that entered the word, from 0.
pub fn number_of(word: u64) -> u32
    ensures { result ≡ number_of word }
{
    ((word / RECORDS) as u32).saturating_sub(1)
}

/// The index of the record that the word names, below 2^48.
pub fn index_of(word: u64) -> u64
    ensures index { result ≡ index_of word }
    ensures range { result < 2 ^ 48 }
{
    word % RECORDS
}
