// The refusals of document 01, "Turned down", then those of document 02's requests, and their numbers.
#![tactic(auto)]

ghost use Rattle.std.specs.Prelude.{◌≡◌};
ghost use Rattle.refusal.specs.Answer.{number_of, by_number, or_damaged};
ghost use Rattle.refusal.specs.declared.Refusal.TheVariants as refusal;

#[derive(Clone, Copy)]
pub enum Refusal {
    Damaged,
    BadState,
    Already,
    NoThread,
    BadConfig,
    BadBudget,
    BackInTime,
    TurnsSpent,
    Halted,
    BadTable,
    BadRecord,
    RecordOrder,
}

// What a function answers that reads or changes a table and finds it damaged: a number that is no record's, a height or
// a length that does not fit, a path with no end. A call hands it on as `Refusal::Damaged`.
#[derive(Clone, Copy)]
pub struct Damaged;

impl From<Damaged> for Refusal {
    ghost from_gives = { λ _ r. r ≡ refusal.Damaged };

    fn from(_: Damaged) -> Self {
        Refusal::Damaged
    }
}

// The same answer where damage is one refusal among others.
#[tactic(auto, unfolding(crate::specs::Answer::or_damaged))]
pub fn told<T>(answer: Result<T, Damaged>) -> Result<T, Refusal>
    ensures { by_number result ≡ or_damaged answer }
{
    Ok(answer?)
}

// The number of the refusal that leaves a mark.
pub const HALTED: u64 = 9;

// The numbers of the refusals on a lift record: a number costs its callers a shorter derivation than a refusal's value.
pub const BAD_TABLE: u64 = 10;

pub const RECORD_ORDER: u64 = 12;

impl Refusal {
    // The refusal's number in documents 01 and 02.
    pub fn number(self) -> u64
        ensures { result ≡ number_of self }
    {
        let refusal = self;
        match refusal {
            Refusal::Damaged => 1,
            Refusal::BadState => 2,
            Refusal::Already => 3,
            Refusal::NoThread => 4,
            Refusal::BadConfig => 5,
            Refusal::BadBudget => 6,
            Refusal::BackInTime => 7,
            Refusal::TurnsSpent => 8,
            Refusal::Halted => HALTED,
            Refusal::BadTable => BAD_TABLE,
            Refusal::BadRecord => 11,
            Refusal::RecordOrder => RECORD_ORDER,
        }
    }
}
