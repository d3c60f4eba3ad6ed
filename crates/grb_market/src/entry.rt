//! The entry that stands first in a text.
ghost use Rattle.std.specs.Prelude.{◌≡◌, ◌<◌, [], ◌∷◌, length, IfSome, IfNone};
ghost use Rattle.grb_market.specs.Line.{unended, lines_of};
ghost use Rattle.grb_market.specs.Gathered.{IsEntryLine};

use crate::fault::FaultKind;
use crate::head::{Head, Size, entry_from, entry_of};
use crate::line::next_line;
use crate::numbers::{three_plain, two_plain};
use grb_core::{Domain, Value};

/// What a line states, or what is wrong with it.
type Stated = Result<((u64, u64), Value), FaultKind>;

/// What the first line states, as any line may be written.
fn any_entry(head: Head, size: Size, text: &[u8]) -> Option<(Stated, &[u8])>
    ensures some { IfSome result (λ p. IsEntryLine head size text.now p.0 p.1.now) }
    ensures none { IfNone result (0 < length text.now → lines_of text.now ≡ unended text.now ∷ []) }
{
    let (line, after) = next_line(text)?;
    Some((entry_of(head, size, line), after))
}

/// The entry that the first line of a text states, or what is wrong with it by itself, and the text after the line. `None` where the text
/// has no line end. A line that is written as most are is read in one walk.
pub(crate) fn next_entry(head: Head, size: Size, text: &[u8]) -> Option<(Stated, &[u8])>
    ensures some { IfSome result (λ p. IsEntryLine head size text.now p.0 p.1.now) }
    ensures none { IfNone result (0 < length text.now → lines_of text.now ≡ unended text.now ∷ []) }
{
    match head.domain {
        Domain::Uint64 => {
            let Some((i, j, value, after)) = three_plain(text) else {
                return any_entry(head, size, text);
            };
            let value = Some(Value::Uint64(value));
            Some((entry_from(head, size, Some(i), Some(j), value), after))
        }
        Domain::Bool => {
            let Some((i, j, after)) = two_plain(text) else {
                return any_entry(head, size, text);
            };
            let value = Some(Value::Bool(true));
            Some((entry_from(head, size, Some(i), Some(j), value), after))
        }
    }
}
