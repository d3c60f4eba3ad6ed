//! Numbers at the front of a line.
ghost use Rattle.std.specs.Prelude.{◌≡◌, ◌≢◌, ◌<◌, ◌≤◌, List, length, take, drop, Some, [], ◌∷◌, IfSome, IfNone, false, true};
ghost use Rattle.std.specs.List.{list_all};
ghost use Rattle.grb_market.specs.Numbers.{is_digit, is_blank, Number, number_of, numbers_of, begins_blank};
ghost use Rattle.grb_market.specs.Front.{begins_digit, behind, before, has_number, IsNumberFront, IsBlankFront, IsNumberBefore, IsNumberLine};

/// Whether the byte parts two words of a line.
fn is_blank(b: u8) -> bool
    ensures { result ≡ is_blank b }
{
    b == b' ' || b == b'\t'
}

/// How many blanks stand first.
fn blanks(text: &[u8]) -> usize
    ensures within { result ≤ length text.now }
    ensures blanks { list_all is_blank (take result text.now) ≡ true }
    ensures behind { begins_blank (drop result text.now) ≡ false }
{
    let mut count: usize = 0;
    for b in text {
        if !is_blank(*b) {
            return count;
        }
        count += 1;
    }
    count
}

/// The number that these digits spell, if it is at most 2^64 - 1.
fn number(word: &[u8]) -> Option<u64>
    requires { list_all is_digit word.now ≡ true }
    ensures { result ≡ number_of word.now }
{
    let mut number: u64 = 0;
    for b in word {
        let tens = number.checked_mul(10)?;
        number = tens.checked_add(u64::from(*b - b'0'))?;
    }
    Some(number)
}

/// How many digits stand first, and the number that they spell, where they are at most 19.
fn first_digits(text: &[u8]) -> (usize, u64)
    ensures within { result.0 ≤ length text.now }
    ensures digits { list_all is_digit (take result.0 text.now) ≡ true }
    ensures number { result.0 ≤ 19 → Some result.1 ≡ number_of (take result.0 text.now) }
    ensures behind { begins_digit (drop result.0 text.now) ≡ false }
{
    let mut count: usize = 0;
    let mut number: u64 = 0;
    for b in text {
        if !b.is_ascii_digit() {
            return (count, number);
        }
        number = number.wrapping_mul(10).wrapping_add(u64::from(*b - b'0'));
        count += 1;
    }
    (count, number)
}

/// The number that stands first, and the text after its digits. A number above 2^64 - 1 is `None`.
fn front_number(text: &[u8]) -> Option<(Option<u64>, &[u8])>
    ensures some { IfSome result (λ p. IsNumberFront text.now p.0 p.1.now) }
    ensures none { IfNone result (begins_digit text.now ≡ false) }
{
    let (end, short) = first_digits(text);
    if end == 0 {
        return None;
    }
    let number = if end <= 19 {
        Some(short)
    } else {
        number(&text[..end])
    };
    Some((number, &text[end..]))
}

/// The number of at most 19 digits that stands first, where this byte is after it, and the text after that byte.
fn number_before(text: &[u8], mark: u8) -> Option<(u64, &[u8])>
    ensures { IfSome result (λ p. IsNumberBefore text.now mark p.0 p.1.now) }
{
    let (end, number) = first_digits(text);
    if end == 0 || end > 19 || end == text.len() || text[end] != mark {
        return None;
    }
    Some((number, &text[end + 1..]))
}

/// The two numbers of a first line that has these with one space between them, each of at most 19 digits, and the text after it.
pub(crate) fn two_plain(text: &[u8]) -> Option<(u64, u64, &[u8])>
    ensures { IfSome result (λ p. IsNumberLine text.now (Some p.0 ∷ Some p.1 ∷ []) p.2.now) }
{
    let (i, rest) = number_before(text, b' ')?;
    let (j, rest) = number_before(rest, b'\n')?;
    Some((i, j, rest))
}

/// The same of three numbers.
pub(crate) fn three_plain(text: &[u8]) -> Option<(u64, u64, u64, &[u8])>
    ensures { IfSome result (λ p. IsNumberLine text.now (Some p.0 ∷ Some p.1 ∷ Some p.2 ∷ []) p.3.now) }
{
    let (i, rest) = number_before(text, b' ')?;
    let (j, rest) = number_before(rest, b' ')?;
    let (value, rest) = number_before(rest, b'\n')?;
    Some((i, j, value, rest))
}

/// The text after the blanks that stand first.
fn behind_blanks(text: &[u8]) -> &[u8]
    ensures { IsBlankFront text.now result.now }
{
    &text[blanks(text)..]
}

/// The first number of a line, and the text after it.
fn first_number(line: &[u8]) -> Option<(Option<u64>, &[u8])>
    ensures some { IfSome result (λ p. numbers_of line.now ≡ before p.0 (behind p.1.now)) }
    ensures none { IfNone result (has_number (numbers_of line.now) ≡ false) }
{
    let (number, rest) = front_number(line)?;
    Some((number, rest))
}

/// The next number after a number, and the text after it.
fn next_number(text: &[u8]) -> Option<(Option<u64>, &[u8])>
    ensures some { IfSome result (λ p. behind text.now ≡ before p.0 (behind p.1.now)) }
    ensures none { IfNone result (has_number (behind text.now) ≡ false) }
{
    let (number, rest) = front_number(behind_blanks(text))?;
    Some((number, rest))
}

/// The first two numbers of a line, and the text after them.
fn two_first(line: &[u8]) -> Option<(Option<u64>, Option<u64>, &[u8])>
    ensures some { IfSome result (λ p. numbers_of line.now ≡ before p.0 (before p.1 (behind p.2.now))) }
    ensures none { IfNone result ((i j : Number) (ns : List Number) → numbers_of line.now ≢ Some (i ∷ j ∷ ns)) }
{
    let (first, rest) = first_number(line)?;
    let (second, rest) = next_number(rest)?;
    Some((first, second, rest))
}

/// The two numbers of a line that has these and nothing else. A number above 2^64 - 1 is `None`.
pub(crate) fn two_numbers(line: &[u8]) -> Option<(Option<u64>, Option<u64>)>
    ensures some { IfSome result (λ p. numbers_of line.now ≡ Some (p.0 ∷ p.1 ∷ [])) }
    ensures none { IfNone result ((i j : Number) → numbers_of line.now ≢ Some (i ∷ j ∷ [])) }
{
    let (first, second, rest) = two_first(line)?;
    if !rest.is_empty() {
        return None;
    }
    Some((first, second))
}

/// The three numbers of a line that has these and nothing else. A number above 2^64 - 1 is `None`.
pub(crate) fn three_numbers(line: &[u8]) -> Option<(Option<u64>, Option<u64>, Option<u64>)>
    ensures some { IfSome result (λ p. numbers_of line.now ≡ Some (p.0 ∷ p.1 ∷ p.2 ∷ [])) }
    ensures none { IfNone result ((i j k : Number) → numbers_of line.now ≢ Some (i ∷ j ∷ k ∷ [])) }
{
    let (first, second, rest) = two_first(line)?;
    let (third, rest) = next_number(rest)?;
    if !rest.is_empty() {
        return None;
    }
    Some((first, second, third))
}
