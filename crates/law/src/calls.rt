//! What a sheet is told and what it answers, as plain data.
ghost use Rattle.std.specs.Prelude.{◌≡◌};
ghost use Rattle.law.specs.Refusals.{numbered};

/// The state of a sheet.
#[derive(Clone, Copy, Debug, PartialEq, Eq, Hash)]
pub enum State {
    Unsettled,
    Standing,
    Barren,
}

// Its kind is a number: any number may be handed in, and only the book at hand knows which kinds there are.
/// A rule: its kind, and the numbers of the lines that it names. A kind of two lines has `c` 0.
#[derive(Clone, Copy, Debug, PartialEq, Eq, Hash)]
pub struct Rule {
    pub kind: u32,
    pub a: u32,
    pub b: u32,
    pub c: u32,
}

/// Why a call is turned away.
#[derive(Clone, Copy, Debug, PartialEq, Eq, Hash)]
pub enum Refusal {
    /// The lower end is above the upper, or the upper above the top.
    Ends,
    /// There is no line of that number, or a rule of two lines names a third.
    NoLine,
    /// One line is named twice.
    Twice,
    /// The book has not got the kind.
    NoKind,
    /// There is no room for another line or rule.
    Full,
    /// The pinch would empty the window.
    Empties,
    /// The sheet is barren.
    IsBarren,
    /// As many tries are open as may be.
    TooManyTries,
    /// The ticket is of another sheet, or not of the innermost try.
    WrongTicket,
}

/// A call on a sheet. A ticket is handed in as the sheet's number and the try's depth.
#[derive(Clone, Copy, Debug, PartialEq, Eq, Hash)]
pub enum Call {
    Line { lo: u32, hi: u32 },
    Rule(Rule),
    Pinch { line: u32, lo: u32, hi: u32 },
    Settle(u32),
    Open,
    Keep { number: u32, depth: u32 },
    Strike { number: u32, depth: u32 },
}

/// What a sheet answers.
#[derive(Clone, Copy, Debug, PartialEq, Eq, Hash)]
pub enum Answer {
    /// The number of the new line or rule.
    Numbered(u32),
    Pinched,
    /// Settled: how many narrowings the run took.
    Standing(u32),
    /// The allowance that was spent.
    Spent(u32),
    /// The number of the rule that has no choice.
    Barren(u32),
    /// The ticket of the new try.
    Opened { number: u32, depth: u32 },
    Kept,
    Struck,
    Refused(Refusal),
}

impl From<Refusal> for u8 {
    ghost from_gives = { λ why number. number ≡ numbered why };

    /// The refusal's number.
    fn from(why: Refusal) -> u8 {
        match why {
            Refusal::Ends => 1,
            Refusal::NoLine => 2,
            Refusal::Twice => 3,
            Refusal::NoKind => 4,
            Refusal::Full => 5,
            Refusal::Empties => 6,
            Refusal::IsBarren => 7,
            Refusal::TooManyTries => 8,
            Refusal::WrongTicket => 9,
        }
    }
}
