// Why a call is refused: the question that was answered no, and its place.
ghost use Rattle.std.specs.Prelude.{◌≡◌};
ghost use Rattle.grid.specs.Questions.{number_of};

// A case for each question, in the order of their numbers.
#[derive(Clone, Copy)]
pub enum Refusal {
    BadSides,
    BitmapLength,
    SpareBits,
    BorderInside,
    TableLength,
    WrongEntry,
    NotHeld,
    Malformed,
    NoKeptVertex,
    BadOffset,
    NoCrossing,
    BeyondTolerance,
    TooFewKept,
    ShortOutput,
    SomeRemoved,
    VertexPinned,
}

// The question that was answered no, and the place that goes with it.
#[derive(Clone, Copy)]
pub struct Refused {
    pub question: Refusal,
    pub place: usize,
}

// The answer to a question: yes, or a no.
pub type Answer = Result<(), Refused>;

impl Refusal {
    // A no with its place.
    pub fn at(self, place: usize) -> Refused
        ensures { result ≡ record { question = self; place = place } }
    {
        Refused {
            question: self,
            place,
        }
    }
}

// The number of the question.
impl From<Refusal> for u32 {
    ghost from_gives = { λ q n. n ≡ number_of q };

    fn from(question: Refusal) -> u32 {
        match question {
            Refusal::BadSides => 1,
            Refusal::BitmapLength => 2,
            Refusal::SpareBits => 3,
            Refusal::BorderInside => 4,
            Refusal::TableLength => 5,
            Refusal::WrongEntry => 6,
            Refusal::NotHeld => 7,
            Refusal::Malformed => 8,
            Refusal::NoKeptVertex => 9,
            Refusal::BadOffset => 10,
            Refusal::NoCrossing => 11,
            Refusal::BeyondTolerance => 12,
            Refusal::TooFewKept => 13,
            Refusal::ShortOutput => 14,
            Refusal::SomeRemoved => 15,
            Refusal::VertexPinned => 16,
        }
    }
}
