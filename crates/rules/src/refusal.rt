// Why a call is refused: the rows of document 01's table.
ghost use Rattle.std.specs.Prelude.{◌≡◌};
ghost use Rattle.rules.specs.Answers.{number_of};

// A row of the table, by its number.
#[derive(Clone, Copy, Debug, PartialEq, Eq)]
pub enum Refusal {
    // n, f or the own number breaks the sizes.
    Sizes = 1,
    // The state or the tray is not sound, or no record readable at n says the vote to be written.
    Unsound = 2,
    // An opening, a step or a close outside its phases.
    Phase = 3,
    // The inbox is ill cut, or the slots are not 33 × n bytes.
    IllCut = 4,
    // The entry is in the tray already.
    Held = 5,
    // The tray holds 16.
    Full = 6,
    // A log handed in does not ascend strictly, or has more than 4,096 entries.
    NoLog = 7,
    // The new log would exceed 4,096.
    LogFull = 8,
    // The lent output is shorter than what would be written.
    Short = 9,
    // Fewer than f + 1 signers.
    FewSigners = 10,
    // A bar whose first interval is after its last.
    FirstAfterLast = 11,
}

impl From<Refusal> for u8 {
    ghost from_gives = { λ refusal number. number ≡ number_of refusal };

    fn from(refusal: Refusal) -> u8 {
        refusal as u8
    }
}
