// Which check refuses, and its number.
ghost use Rattle.std.specs.Prelude.{◌≡◌};
ghost use Rattle.refusals.specs.Numbers as numbers;

// Which check refuses.
#[derive(Clone, Copy, Debug, PartialEq, Eq)]
pub enum Refusal {
    UnknownKind,
    ValueTooLarge,
    StillSending,
    Locked,
    CannotReceive,
    NothingSent,
    ListLength,
    AnswerSpace,
    ImageSpace,
    NoImage,
    BrokenBody,
    NoMouse,
    TableLength,
    TableKeys,
    TableFixed,
    OtherSettings,
}

impl From<Refusal> for u8 {
    ghost from_gives = { λ r n. n ≡ numbers.number r };

    fn from(refusal: Refusal) -> u8 {
        match refusal {
            Refusal::UnknownKind => 1,
            Refusal::ValueTooLarge => 2,
            Refusal::StillSending => 3,
            Refusal::Locked => 4,
            Refusal::CannotReceive => 5,
            Refusal::NothingSent => 6,
            Refusal::ListLength => 7,
            Refusal::AnswerSpace => 8,
            Refusal::ImageSpace => 9,
            Refusal::NoImage => 10,
            Refusal::BrokenBody => 11,
            Refusal::NoMouse => 12,
            Refusal::TableLength => 13,
            Refusal::TableKeys => 14,
            Refusal::TableFixed => 15,
            Refusal::OtherSettings => 16,
        }
    }
}

// The number of what a call answered: 0 where no check refuses.
pub fn number_of(answer: Result<(), Refusal>) -> u8
    ensures { result ≡ numbers.outcome answer }
{
    match answer {
        Ok(()) => 0,
        Err(refusal) => refusal.into(),
    }
}
