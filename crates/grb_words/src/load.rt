//! The line that loads a file.
ghost use Rattle.std.specs.Prelude.{◌≡◌, map};
ghost use Rattle.std.specs.Option.{option_map};
ghost use Rattle.grb_words.specs.Form.{load_of};

use crate::word::is_name;

/// The name and the path that the words `load NAME PATH` spell, if they spell these and no more. PATH is any word that is UTF-8.
pub fn load_of<'a>(words: &'a [&'a [u8]]) -> Option<(&'a [u8], &'a str)>
    ensures { option_map (λ load. (load.0.now, load.1.now)) result ≡ load_of (map (λ word. word.now) words.now) }
{
    let [_, name, path] = words else {
        return None;
    };
    if !is_name(name) {
        return None;
    }
    match str::from_utf8(path) {
        Ok(path) => Some((*name, path)),
        Err(_) => None,
    }
}
