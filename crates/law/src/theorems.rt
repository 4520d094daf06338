//! Theorems about the definitions, each the contract of a small function.
//! They hold of every meaning that a book may have: the functions are generic in it.
ghost use Rattle.std.specs.Prelude.{◌≡◌};
ghost use Rattle.law.specs.WorkedHistories.{Worked};
ghost use Rattle.law.specs.Law.{Lawful};
ghost use Rattle.law.specs.Sound.{EndingExists, Total};
ghost use Rattle.law.specs.WorkedRefusals.{WorkedRefusals};
ghost use Rattle.law.specs.Runs.{UniqueEnding};
ghost use Rattle.law.specs.Steps.{Deterministic};
ghost use Rattle.windows.specs.Meanings.{Meaning};

/// Whatever has a meaning, as a book has: its top code, and which codes satisfy which kind of rule.
pub trait Meant {
    ghost meaning: { Meaning };
}

/// After every list of calls the law holds of the sheet that it leads to; answers how many kinds of call there are.
pub fn law_holds<M: Meant>() -> u8
    ensures calls { result ≡ 7 }
    ensures law { Lawful M.meaning }
{
    7
}

/// How many outcomes a call has.
const OUTCOMES: u8 = 1;

/// A call on a sheet does one thing, and gives one answer; on a sound sheet it gives one, where each try is decided.
/// Answers how many outcomes a call has.
pub fn calls_have_one_outcome<M: Meant>() -> u8
    ensures outcomes { result ≡ 1 }
    ensures unique { Deterministic M.meaning }
    ensures exists { Total M.meaning }
{
    OUTCOMES
}

/// How many endings a run has.
const ENDINGS: u8 = 1;

/// The run of settle has no two endings; and it has one, from every sound core, where each try is decided.
/// Answers how many endings a run has.
pub fn run_has_one_ending<M: Meant>() -> u8
    ensures endings { result ≡ 1 }
    ensures unique { UniqueEnding M.meaning }
    ensures exists { EndingExists M.meaning }
{
    ENDINGS
}

/// What is in force after a few worked histories, and which refusal answers where several cases apply; answers how many there are.
pub fn worked_cases() -> u8
    ensures count { result ≡ 39 }
    ensures histories { Worked }
    ensures refusals { WorkedRefusals }
{
    39
}
