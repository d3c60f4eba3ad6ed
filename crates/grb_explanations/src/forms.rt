//! The forms of the lines of a script, as FORMATS has them.
use crate::near::is_near;

/// The word that a line begins with, and the form of the line. A PLACE is `I` at a vector and `I J` at a matrix.
static FORMS: [(&str, &str); 30] = [
    ("matrix", "matrix NAME DOMAIN R C"),
    ("vector", "vector NAME DOMAIN N"),
    ("dup", "dup NAME NAME"),
    ("load", "load NAME PATH"),
    ("free", "free NAME"),
    ("set", "set NAME PLACE VALUE"),
    ("remove", "remove NAME PLACE"),
    ("get", "get NAME PLACE"),
    ("nvals", "nvals NAME"),
    ("size", "size NAME"),
    ("clear", "clear NAME"),
    ("resize", "resize NAME N, or resize NAME R C"),
    (
        "build",
        "build NAME MONOID .., with I VALUE or I J VALUE each",
    ),
    ("ewiseadd", "ewiseadd NAME NAME NAME OP OPTIONS"),
    ("ewisemult", "ewisemult NAME NAME NAME OP OPTIONS"),
    ("mxv", "mxv NAME NAME NAME SEMIRING OPTIONS, without tran1"),
    (
        "vxm",
        "vxm NAME NAME NAME SEMIRING OPTIONS, from version 2 on and without tran",
    ),
    ("mxm", "mxm NAME NAME NAME SEMIRING OPTIONS"),
    ("reduce", "reduce NAME NAME MONOID OPTIONS, without tran1"),
    (
        "transpose",
        "transpose NAME NAME OPTIONS, in version 3 and without tran1",
    ),
    (
        "apply",
        "apply NAME NAME UNARY OPTIONS, or apply NAME NAME OP VALUE OPTIONS, without tran1, or \
        apply NAME NAME VALUE OP OPTIONS, without tran, all in version 3",
    ),
    (
        "select",
        "select NAME NAME TEST OPTIONS, in version 3 and without tran1",
    ),
    (
        "kronecker",
        "kronecker NAME NAME NAME OP OPTIONS, in version 3",
    ),
    ("diag", "diag NAME NAME D, in version 3"),
    ("tuples", "tuples NAME, in version 3"),
    ("total", "total NAME MONOID"),
    ("wait", "wait NAME complete, or wait NAME materialize"),
    (
        "thread",
        "thread K, the sections numbered 1, 2, 3 and so on",
    ),
    ("finally", "finally, once and after all other sections"),
    ("version", "version 2 or version 3, on line 1 alone"),
];

/// The options of a line, which stand at its end in this order.
pub(crate) const OPTIONS: &str =
    "OPTIONS: mask NAME, structure, comp, accum OP, replace, from version 2 on tran, and in version 3 tran1, in this order";

/// The form of the lines that begin with this word, if there is one.
pub(crate) fn form_of(word: &[u8]) -> Option<&'static str> {
    for (first, form) in &FORMS {
        if first.as_bytes() == word {
            return Some(*form);
        }
    }
    None
}

/// A word near this one that a line may begin with, if there is one.
pub(crate) fn near_first_word(word: &[u8]) -> Option<&'static str> {
    for (first, _) in &FORMS {
        if is_near(first.as_bytes(), word) {
            return Some(*first);
        }
    }
    None
}
