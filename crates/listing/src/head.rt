// The file header: 36 bytes, and nothing is judged before all of them are present.
ghost use Rattle.std.specs.Prelude.{◌≡◌};
ghost use Rattle.listing.specs.Listing.{head_answer, head_of};

use answer::{Outcome, Refusal, Stopped};
use headers::fields::Fields;
use headers::file_header::FileHeader;
use limits::INPUT;

// Where nothing is listed yet.
fn headed(answer: Result<(), Stopped>, place: usize) -> Outcome
    ensures { result ≡ head_answer answer place }
{
    Outcome {
        answer,
        place,
        count: 0,
    }
}

// Accepted, or the header's own refusal.
// Stays: (d) each test has a name and a place of its own, so an inner Result with `?` would carry both, and no line would go.
#[tactic(auto, unfolding(crate::specs::Listing::head_of, laws::specs::Choice::pick))]
pub fn judge(s: &[u8]) -> Outcome
    ensures { result ≡ head_of s.now }
{
    if INPUT < s.len() {
        return headed(Err(Stopped::OverLimit), 0);
    }
    if s.len() < FileHeader::SIZE {
        return headed(Err(Refusal::EndsTooSoon.into()), 0);
    }
    let h = FileHeader::decode(s, 0);
    if !h.signed() {
        return headed(Err(Stopped::WrongSignature), 0);
    }
    if !h.version_3_0() {
        return headed(Err(Stopped::WrongVersion), FileHeader::VERSION);
    }
    headed(Ok(()), FileHeader::SIZE)
}
