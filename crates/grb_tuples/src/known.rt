//! What is known of a list without a walk of it, for the checks of a build.
ghost use Rattle.std.specs.Prelude.{◌≡◌, ◌&&◌, ℕ, true, nat_lt};
ghost use Rattle.grb_tuples.specs.SameDomain.{same_domain};
ghost use Rattle.grb_tuples.specs.Tuples.{are_of, are_below};

use grb_core::Domain;

/// Of which domains some values are: whether all are truth values, and whether all are numbers. No value is both.
#[derive(Clone, Copy, Debug)]
pub(crate) struct Domains {
    bools: bool,
    numbers: bool,
}

impl Domains {
    /// Those of no value.
    pub(crate) fn of_none() -> Domains
        ensures { (d : Domain) → are_of result d ≡ true }
    {
        Domains {
            bools: true,
            numbers: true,
        }
    }

    /// These with that of one value more.
    pub(crate) fn with(self, domain: Domain) -> Domains
        ensures { (d : Domain) → are_of result d ≡ (are_of self d && same_domain d domain) }
    {
        Domains {
            bools: self.bools & (domain == Domain::Bool),
            numbers: self.numbers & (domain == Domain::Uint64),
        }
    }

    /// Whether all are this one.
    pub(crate) fn are(self, domain: Domain) -> bool
        ensures { result ≡ are_of self domain }
    {
        match domain {
            Domain::Bool => self.bools,
            Domain::Uint64 => self.numbers,
        }
    }
}

/// The largest of some numbers, or that there is none.
#[derive(Clone, Copy, Debug)]
pub(crate) struct Largest {
    number: Option<u64>,
}

impl Largest {
    /// That of no number.
    pub(crate) fn of_none() -> Largest
        ensures { (n : ℕ) → are_below result n ≡ true }
    {
        Largest { number: None }
    }

    /// That of these and one number more.
    pub(crate) fn with(self, number: u64) -> Largest
        ensures { (n : ℕ) → are_below result n ≡ (are_below self n && nat_lt number n) }
    {
        Largest {
            number: match self.number {
                Some(largest) if number <= largest => self.number,
                _ => Some(number),
            },
        }
    }

    /// Whether it is below the bound, and so each of the numbers.
    pub(crate) fn is_below(self, bound: u64) -> bool
        ensures { result ≡ are_below self bound }
    {
        match self.number {
            Some(largest) => largest < bound,
            None => true,
        }
    }
}
