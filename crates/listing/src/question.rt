// What a view asks of the walk: which entries, and one of them by its index among these; and the answer. It is told of each entry in turn,
// so the rules know nothing of it, and it changes no answer.
ghost use Rattle.std.specs.Prelude.{◌≡◌, ◌+◌, ◌<◌, ◌^◌};
ghost use Rattle.listing.specs.Question.{is_asked, noted};

use entry::Entry;

// The entries of an id that are skipped (1) or not (0), and the index-th of them.
#[derive(Clone, Copy)]
pub struct Question {
    // Stays: (a) both are compared with the entry's own numbers, which C sees, and `question` of specs/ takes numbers.
    pub id: u32,
    pub skipped: u32,
    pub index: usize,
}

// How many there were, and the one that was asked for: zeros where there are not so many.
#[derive(Clone, Copy)]
pub struct Found {
    pub count: usize,
    pub entry: Entry,
}

impl Question {
    // A question that a listing does not need answered.
    // Stays: (d) a constant and no `Default`: its name says that nothing is asked.
    pub const IDLE: Question = Question {
        id: 0,
        skipped: 0,
        index: 0,
    };

    fn asks(self, e: Entry) -> bool
        ensures { result ≡ is_asked self e }
    {
        e.block.id == self.id && e.block.skipped == self.skipped
    }
}

impl Found {
    // Before any entry.
    // Stays: (d) a constant and no `Default`, as `Entry::NONE`.
    pub const NOTHING: Found = Found {
        count: 0,
        entry: Entry::NONE,
    };

    // With one entry more.
    #[tactic(auto, unfolding(crate::specs::Question::noted, laws::specs::Choice::pick))]
    pub(crate) fn note(self, question: Question, e: Entry) -> Found
        requires { self.count + 1 < 2 ^ 64 }
        ensures { result ≡ noted question self e }
    {
        if !question.asks(e) {
            return self;
        }
        Found {
            count: self.count + 1,
            entry: if self.count == question.index {
                e
            } else {
                self.entry
            },
        }
    }
}
