// How a call says no: document 01's refusals by its words, and their numbers, which the C interface hands out.
#![tactic(auto)]

ghost use Rattle.std.specs.Prelude.{◌≡◌};
ghost use Rattle.refusal.specs.Outcome as Spec;

// Document 01's table; specs/Numbers.antt has the same.
#[derive(Clone, Copy, PartialEq, Eq)]
pub enum Refusal {
    NodeColumns = 1,
    PanelColumns = 2,
    MissingNode = 3,
    ZeroArea = 4,
    NodalValues = 5,
    Output = 6,
    Matrix = 7,
    Coefficients = 8,
    Map = 9,
    Flux = 10,
    TooLarge = 11,
    NoSuchChoice = 12,
    NoSuchNode = 13,
    Mark = 14,
    FileLength = 15,
    Display = 16,
    UnknownName = 17,
    NoPlace = 18,
    NotFinite = 19,
}

impl Refusal {
    pub fn number(self) -> u32
        ensures { result ≡ Spec.number self }
    {
        self as u32
    }
}

// The number that the C interface hands out: 0 for a call that is done.
pub fn number_of<T>(outcome: &Result<T, Refusal>) -> u32
    ensures { result ≡ Spec.number_of outcome.now }
{
    match outcome {
        Ok(_) => 0,
        Err(refusal) => refusal.number(),
    }
}

// A call's value, zero on a refusal, to a lent place of the C interface; the answer is the number.
pub fn hand_out<T: Copy>(outcome: Result<T, Refusal>, zero: T, place: &mut T) -> u32
    ensures number { result ≡ Spec.number_of outcome }
    ensures value { place.new ≡ Spec.value_or zero outcome }
{
    match outcome {
        Ok(value) => {
            *place = value;
            0
        }
        Err(refusal) => {
            *place = zero;
            refusal.number()
        }
    }
}
