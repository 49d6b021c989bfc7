// The frame check that C calls (include/folderpink.h): frame's function of that name, with its clause. The C interface wants
// this crate: an archive exports the functions of its own crate alone.
#![tactic(auto)]

ghost use Rattle.std.specs.Prelude.{◌≡◌};
ghost use Rattle.frame.specs.Reading.{reading_of, number_of};

// The frame check for the bus card's driver, in C: 0, or the number of the first fault (include/folderpink.h).
#[unsafe(no_mangle)]
pub extern "C" fn folderpink_check_frame(bytes: &[u8]) -> u8
    ensures { result ≡ number_of (reading_of bytes.now) }
{
    frame::read::folderpink_check_frame(bytes)
}
