// Where a kind of block is judged, and what each of them asks there: whether a unit is present, whether a field is permitted.
ghost use Rattle.std.specs.Prelude.{◌≡◌, ℕ, ◌+◌, ◌≤◌, ◌<◌, ◌^◌, List, length, IfOk, None, Ok};
ghost use Rattle.laws.specs.Lists.{part};
ghost use Rattle.limits.specs.Limits.{input_limit};
ghost use Rattle.entry.specs.Entry.{block, ranked};
ghost use Rattle.walk.specs.Walk as walk;
ghost use Rattle.walk.specs.Unit.{unit};
ghost use Rattle.headers.specs.BlockHeader.{block_header_size, block_header_at};
ghost use Rattle.headers.specs.Kind.{id_of};
ghost use Rattle.kinds.specs.Headed.{Headed};
ghost use Rattle.kinds.specs.Blocks.{Judged, told, tested, unless, permitted};

use crate::answers::{Step, Stop, ranked_entry, wrong_field};
use answer::Refusal;
use headers::block_header::BlockHeader;
use headers::fields::Fields;
use headers::kind::Kind;
use memory::State;

// Behind a header that is present at a place of an input within the limit, so many levels deep.
#[derive(Clone, Copy)]
pub struct Here<'a> {
    pub input: &'a [u8],
    pub at: usize,
    pub level: usize,
    pub ghost headed: { Headed input.now at level },
}

impl<'a> Here<'a> {
    // If the header is present.
    #[tactic(auto, using(walk::proofs::Unit::unit_soon, walk::proofs::Unit::unit_there))]
    pub fn at(input: &'a [u8], at: usize, level: usize) -> Result<Here<'a>, Stop>
        requires { (length input.now ≤ input_limit) × (at < 2 ^ 63) × (level ≤ 2) }
        ensures there { IfOk result (λ here. (here.input.now ≡ input.now) × (here.at ≡ at) × (here.level ≡ level)) }
        ensures judged { (judge : List ℕ → Judged) → tested result (λ _. judge (part input.now at block_header_size)) ≡ unit input.now at block_header_size judge }
    {
        if input.len() < at + BlockHeader::SIZE {
            return Err(Stop {
                refusal: Refusal::EndsTooSoon,
                place: at,
            });
        }
        Ok(Here { input, at, level })
    }

    pub fn header(self) -> BlockHeader
        ensures { result ≡ block_header_at self.entry.input.now self.entry.at }
    {
        BlockHeader::decode(self.input, self.at)
    }

    // Where the chunk begins.
    pub fn chunk_place(self) -> usize
        ensures { result ≡ self.entry.at + block_header_size }
    {
        self.at + BlockHeader::SIZE
    }

    // At the header.
    pub fn stop(self, refusal: Refusal) -> Stop
        ensures { result ≡ record { refusal = refusal; place = self.entry.at } }
    {
        Stop {
            refusal,
            place: self.at,
        }
    }

    // A refusal at the header, unless a test holds.
    #[tactic(auto, unfolding(laws::specs::Choice::pick))]
    pub fn unless(self, test: bool, refusal: Refusal) -> Result<(), Stop>
        ensures { (rest : Judged) → tested result (λ _. rest) ≡ unless test (walk.Stop refusal self.entry.at) rest }
    {
        if test {
            return Ok(());
        }
        Err(self.stop(refusal))
    }

    // The end of a unit of so many bytes, if they are present.
    #[tactic(auto, using(walk::proofs::Unit::unit_soon, walk::proofs::Unit::unit_there))]
    pub fn unit(self, place: usize, size: usize) -> Result<usize, Stop>
        requires { place + size < 2 ^ 64 }
        ensures there { IfOk result (λ end. (end ≡ place + size) × (end ≤ length self.entry.input.now)) }
        ensures judged { (judge : List ℕ → Judged) → tested result (λ _. judge (part self.entry.input.now place size)) ≡ unit self.entry.input.now place size judge }
    {
        let end = place + size;
        if self.input.len() < end {
            return Err(Stop {
                refusal: Refusal::EndsTooSoon,
                place,
            });
        }
        Ok(end)
    }

    // The chunk behind the header.
    pub fn chunk<C: Fields>(self) -> Result<C, Stop>
        requires { C.SIZE < 2 ^ 32 }
        ensures { (judge : C → Judged) → tested result judge ≡ unit self.entry.input.now (self.entry.at + block_header_size) C.SIZE (λ bytes. judge (C.fields_of bytes)) }
    {
        let place = self.chunk_place();
        self.unit(place, C::SIZE)?;
        Ok(C::decode(self.input, place))
    }

    // Each field of the chunk is permitted, or it ends at the earliest that is not: the place is the field's.
    #[tactic(auto, unfolding(crate::specs::Blocks::permitted))]
    pub fn permitted(self, fault: Option<u32>) -> Result<(), Stop>
        ensures good { IfOk result (λ _. fault ≡ None) }
        ensures judged { (rest : Judged) → tested result (λ _. rest) ≡ permitted fault (self.entry.at + block_header_size) rest }
    {
        match fault {
            None => Ok(()),
            Some(offset) => Err(wrong_field(self.chunk_place(), offset)),
        }
    }

    // Behind the chunk the block is entered, with its rank in its parent, 0 where it has none. Its end is the one that its total tells, and
    // may pass 32 bits.
    pub fn nest<C: Fields>(self, kind: Kind, rank: u32, state: State, total: u32) -> Step
        requires { C.SIZE < 2 ^ 31 }
        ensures { told (Ok result) ≡ walk.Nest (ranked (block (id_of kind) 0 self.entry.level self.entry.at (block_header_size + C.SIZE)) rank) (self.entry.at + (block_header_size + C.SIZE)) state (self.entry.at + block_header_size + total) }
    {
        let head = BlockHeader::SIZE + C::SIZE;
        Step::Nest {
            entry: ranked_entry(kind.into(), self.level, self.at, head, rank),
            inside: self.at + head,
            state,
            after: self.chunk_place() + total as usize,
        }
    }
}
