// The version of the library that is linked: include/psp.h has the same number, and a program that compares the two sees a header and an
// archive that do not belong together.
ghost use Rattle.std.specs.Prelude.{◌≡◌};
ghost use Rattle.psp.specs.Version.{version};

#[unsafe(no_mangle)]
pub extern "C" fn psp_version() -> u32
    ensures { result ≡ version }
{
    psp::VERSION
}
