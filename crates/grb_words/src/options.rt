//! The options at the end of a line: mask, accumulator and flags.
ghost use Rattle.std.specs.Prelude.{◌≡◌, map};
ghost use Rattle.std.specs.Option.{option_map};
ghost use Rattle.grb_words.specs.Options.{flag, mask_option, accum_option, last_flags, options_of, product_turns, function_turns, has_tran, has_tran1, options_in, spelled};

use crate::keyword::Multiply;
use crate::version::Version;
use crate::word::{is_name, operator};
use grb_call::Descriptor;
use grb_core::{BinaryOp, Function};

/// The options after a statement that writes an output, as the words of its line spell them.
#[derive(Clone, Copy, Debug, PartialEq, Eq)]
pub struct Options<'a> {
    /// The name of the mask, where one is given.
    pub mask: Option<&'a [u8]>,
    /// The accumulator, where one is given.
    pub accum: Option<BinaryOp>,
    /// How the mask is read and the output written.
    pub descriptor: Descriptor,
}

/// Which inputs a statement may say to read transposed, by its form: the first by `tran`, and the second by `tran1`.
#[derive(Clone, Copy, Debug, PartialEq, Eq)]
pub enum Turns {
    /// The first.
    First,
    /// The second.
    Second,
    /// Both.
    Both,
}

/// Whether the words begin with this one, and the words after it where they do.
fn flag<'a>(words: &'a [&'a [u8]], word: &[u8]) -> (bool, &'a [&'a [u8]])
    ensures { (result.0, map (λ word. word.now) result.1.now) ≡ flag (map (λ word. word.now) words.now) word.now }
{
    match words.split_first() {
        Some((first, others)) if *first == word => (true, others),
        _ => (false, words),
    }
}

/// `mask NAME` where the words begin with `mask`, and the words after that.
fn mask_option<'a>(words: &'a [&'a [u8]]) -> Option<(Option<&'a [u8]>, &'a [&'a [u8]])>
    ensures { option_map (λ read. (option_map (λ name. name.now) read.0, map (λ word. word.now) read.1.now)) result ≡ mask_option (map (λ word. word.now) words.now) }
{
    let (is_given, words) = flag(words, b"mask");
    if !is_given {
        return Some((None, words));
    }
    let (name, others) = words.split_first()?;
    if !is_name(name) {
        return None;
    }
    Some((Some(*name), others))
}

/// `accum OP` where the words begin with `accum`, and the words after that.
fn accum_option<'a>(words: &'a [&'a [u8]]) -> Option<(Option<BinaryOp>, &'a [&'a [u8]])>
    ensures { option_map (λ read. (read.0, map (λ word. word.now) read.1.now)) result ≡ accum_option (map (λ word. word.now) words.now) }
{
    let (is_given, words) = flag(words, b"accum");
    if !is_given {
        return Some((None, words));
    }
    let (word, others) = words.split_first()?;
    let op = operator(word)?;
    Some((Some(op), others))
}

/// Whether `replace`, whether `tran` and whether `tran1` is given, where the words spell nothing else.
fn last_flags(words: &[&[u8]]) -> Option<(bool, bool, bool)>
    ensures { result ≡ last_flags (map (λ word. word.now) words.now) }
{
    let (replace, words) = flag(words, b"replace");
    let (tran, words) = flag(words, b"tran");
    let (tran1, words) = flag(words, b"tran1");
    if !words.is_empty() {
        return None;
    }
    Some((replace, tran, tran1))
}

/// The options that the words spell, if they spell them and nothing else: `mask NAME`, `structure`, `comp`, `accum OP`, `replace`,
/// `tran` and `tran1`, in this order, each at most once (own).
fn options_of<'a>(words: &'a [&'a [u8]]) -> Option<Options<'a>>
    ensures { option_map spelled result ≡ options_of (map (λ word. word.now) words.now) }
{
    let (mask, words) = mask_option(words)?;
    let (structure, words) = flag(words, b"structure");
    let (comp, words) = flag(words, b"comp");
    let (accum, words) = accum_option(words)?;
    let (replace, tran, tran1) = last_flags(words)?;
    Some(Options {
        mask,
        accum,
        descriptor: Descriptor {
            structure,
            comp,
            replace,
            tran,
            tran1,
        },
    })
}

/// The inputs that a statement may read transposed that multiplies: those that are matrices.
pub fn product_turns(multiply: Multiply) -> Turns
    ensures { result ≡ product_turns multiply }
{
    match multiply {
        Multiply::Mxv => Turns::First,
        Multiply::Vxm => Turns::Second,
        Multiply::Mxm => Turns::Both,
    }
}

/// The input that an `apply` of this function may read transposed: the object stands second where the value stands first.
pub fn function_turns(function: Function) -> Turns
    ensures { result ≡ function_turns function }
{
    match function {
        Function::Unary(_) | Function::Second(..) => Turns::First,
        Function::First(..) => Turns::Second,
    }
}

/// Whether a statement with these inputs may say `tran` in a script of this version.
fn has_tran(version: Version, turns: Turns) -> bool
    ensures { result ≡ has_tran version turns }
{
    match (version, turns) {
        (Version::One, _) | (_, Turns::Second) => false,
        (Version::Two | Version::Three, Turns::First | Turns::Both) => true,
    }
}

/// Whether a statement with these inputs may say `tran1` in a script of this version.
fn has_tran1(version: Version, turns: Turns) -> bool
    ensures { result ≡ has_tran1 version turns }
{
    match (version, turns) {
        (Version::One | Version::Two, _) | (_, Turns::First) => false,
        (Version::Three, Turns::Second | Turns::Both) => true,
    }
}

/// The options that the words spell after a statement in a script of this version, if they spell them and nothing else: `mask NAME`,
/// `structure`, `comp`, `accum OP`, `replace`, and, for an input that the statement may read transposed, from version 2 on `tran` and from
/// version 3 on `tran1`, in this order, each at most once (own).
pub fn options_in<'a>(version: Version, turns: Turns, words: &'a [&'a [u8]]) -> Option<Options<'a>>
    ensures { option_map spelled result ≡ options_in version turns (map (λ word. word.now) words.now) }
{
    let options = options_of(words)?;
    let descriptor = options.descriptor;
    if descriptor.tran && !has_tran(version, turns)
        || descriptor.tran1 && !has_tran1(version, turns)
    {
        return None;
    }
    Some(options)
}
