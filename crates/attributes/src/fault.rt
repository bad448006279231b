// A fault is the offset of the earliest field of a chunk whose value is not permitted, where there is one. Each field is judged by itself, and
// `or` keeps the earlier.
ghost use Rattle.std.specs.Prelude.{None, ◌≡◌};
ghost use Rattle.attributes.specs.Fault.{unless_of};

// The field at an offset, unless its value is permitted.
#[tactic(auto, using(crate::proofs::Earliest::alone))]
pub fn unless(permitted: bool, offset: u32) -> Option<u32>
    ensures { result ≡ unless_of None permitted offset }
{
    (!permitted).then_some(offset)
}
