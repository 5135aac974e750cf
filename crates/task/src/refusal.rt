// Why a call is refused: the rows of the published table, each with its detail where it states one.
ghost use Rattle.std.specs.Prelude.{◌≡◌};
ghost use Rattle.task.specs.Refusals.{refusal_number, refusal_detail};
ghost use Rattle.task.specs.declared.refusal.Refusal.TheVariants as variants;

#[derive(Clone, Copy, Debug, PartialEq, Eq)]
pub enum Refusal {
    WrongLength,
    BeyondLimit,
    BadTable(u32),
    Duplicate(u32),
    Cycle(u32),
    TooManyRoots(u32),
    NoSuchWorker(u32),
    Damaged,
    WrongPhase(u32),
    NothingThere,
    RingsFull(u32),
    RecordFull,
    BrokenLayout(u32),
    NoDummies,
    BadWindow,
}

impl Refusal {
    // The row's number in the table, and its detail: "A later refusal without a stated detail has detail 0." Both by one match, as
    // Release, Fetch and Complete take 1 to 2 % more instructions with a match for each.
    pub fn row(self) -> (u32, u32)
        ensures { result ≡ (refusal_number self, refusal_detail self) }
    {
        match self {
            Refusal::WrongLength => (1, 0),
            Refusal::BeyondLimit => (2, 0),
            Refusal::BadTable(detail) => (3, detail),
            Refusal::Duplicate(detail) => (4, detail),
            Refusal::Cycle(detail) => (5, detail),
            Refusal::TooManyRoots(detail) => (6, detail),
            Refusal::NoSuchWorker(detail) => (7, detail),
            Refusal::Damaged => (8, 0),
            Refusal::WrongPhase(detail) => (9, detail),
            Refusal::NothingThere => (10, 0),
            Refusal::RingsFull(detail) => (11, detail),
            Refusal::RecordFull => (12, 0),
            Refusal::BrokenLayout(detail) => (13, detail),
            Refusal::NoDummies => (14, 0),
            Refusal::BadWindow => (15, 0),
        }
    }

    pub fn number(self) -> u32
        ensures { result ≡ refusal_number self }
    {
        let (number, _) = self.row();
        number
    }

    pub fn detail(self) -> u32
        ensures { result ≡ refusal_detail self }
    {
        let (_, detail) = self.row();
        detail
    }
}

// A word that the rule reads is out of its range: 8, whatever the call.
#[derive(Clone, Copy, Debug, PartialEq, Eq)]
pub struct Damaged;

impl From<Damaged> for Refusal {
    ghost from_gives = { λ _ why. why ≡ variants.Damaged };

    fn from(_damaged: Damaged) -> Refusal {
        Refusal::Damaged
    }
}
