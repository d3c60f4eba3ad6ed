//! Words that are one slip apart.

/// Two words without the bytes with which both begin.
fn without_common_start<'a>(one: &'a [u8], other: &'a [u8]) -> (&'a [u8], &'a [u8]) {
    let common = one.iter().zip(other).take_while(|(a, b)| a == b).count();
    (
        one.get(common..).unwrap_or(&[]),
        other.get(common..).unwrap_or(&[]),
    )
}

/// Whether one slip turns a word into another: a byte changed, left out or added, or two neighbours exchanged. Nothing is near a word of
/// one byte.
pub fn is_near(one: &[u8], other: &[u8]) -> bool {
    if one.len() < 2 || other.len() < 2 {
        return false;
    }
    match without_common_start(one, other) {
        ([a, b, rest @ ..], [c, d, others @ ..]) if a == d && b == c && rest == others => true,
        ([_, rest @ ..], [_, others @ ..]) if rest == others => true,
        ([_, rest @ ..], others) if rest == others => true,
        (rest, [_, others @ ..]) => rest == others,
        _ => false,
    }
}
