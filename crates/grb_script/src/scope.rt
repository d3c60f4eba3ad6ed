//! Where a line stands: the section, the names made so far, and the version.
ghost use Rattle.std.specs.Prelude.{◌≡◌};
ghost use Rattle.grb_script.specs.Scope.{at_start, begun, most_threads, may_follow, seen, IsKept};

use crate::names::Names;
use grb_words::{Section, Version};
use std::alloc::Global;

/// Where a line of a script stands: the version of the script, the section, and the names that stand there. Those of main come first.
#[derive(Drop)]
pub(crate) struct Scope {
    /// The version, and `None` on line 1, which settles it.
    pub(crate) version: Option<Version>,
    /// The section, and `None` in main.
    pub(crate) section: Option<Section>,
    /// How many of the names are of main, where a section began.
    pub(crate) main: usize,
    /// The names that stand.
    pub(crate) names: Names,
}

/// How many thread sections a script of this version may have.
fn most_threads(version: Version) -> u64
    ensures { result ≡ most_threads version }
{
    match version {
        Version::One => 63,
        Version::Two | Version::Three => 255,
    }
}

/// Whether this section may stand after that one, or after main, in a script of this version.
pub(crate) fn may_follow(version: Version, here: Option<Section>, next: Section) -> bool
    ensures { result ≡ may_follow version here next }
{
    match (here, next) {
        (None, Section::Thread(k)) => k == 1,
        (Some(Section::Thread(last)), Section::Thread(k)) => {
            last < most_threads(version) && k == last + 1
        }
        (None | Some(Section::Thread(_)), Section::Finally) => true,
        (Some(Section::Finally), _) => false,
    }
}

impl Scope {
    /// Where the first line of this script stands.
    pub(crate) fn new(alloc: Global, text: &[u8]) -> Scope
        ensures start { seen result ≡ at_start }
        ensures kept { IsKept result }
    {
        Scope {
            version: None,
            section: None,
            main: 0,
            names: Names::new(alloc, text),
        }
    }

    /// A section begins here: of the names those of main stand in it. Takes no memory.
    pub(crate) fn begin(&mut self, section: Section)
        requires kept { IsKept self.old }
        ensures begun { seen self.new ≡ begun (seen self.old) section }
        ensures kept { IsKept self.new }
    {
        if self.section.is_none() {
            self.main = self.names.len();
        }
        self.names.truncate(self.main);
        self.section = Some(section);
    }
}
