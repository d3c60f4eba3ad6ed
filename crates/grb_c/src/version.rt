//! Which library this is.
ghost use Rattle.std.specs.Prelude.{◌≡◌, true};

/// Tells the version as one number: 10,000 times the first of its three parts, 100 times the second, and the third, added up. A program
/// that was made for another one refuses the library by it.
#[unsafe(no_mangle)]
pub extern "C" fn trb_version() -> u32
    ensures { result ≡ 10000 }
{
    10_000
}

/// Tells whether the library is proved. What is built before any proof answers no, since its build puts another function in the place of
/// this one.
#[unsafe(no_mangle)]
pub extern "C" fn trb_is_proved() -> bool
    ensures proved { result ≡ true }
{
    true
}
