// Why a call is refused, and who refused it.
ghost use Rattle.std.specs.Prelude.{◌≡◌, if◌then◌else◌, Some, MatchOption, MatchResult};
ghost use Rattle.plumbing.specs.Refusals.{number_of, word_of, name_of, WordOf, Wordless, written};

use std::fmt;

// Why a call is refused.
#[derive(Clone, Copy, PartialEq, Eq, Debug)]
pub enum Reason {
    // a chunk or step size is 0
    Zero = 1,
    // there would be more than 2^64 - 1 items
    Overlong = 2,
    // the board does not fit, or the slots are not as many as the items
    Slots = 3,
    // more is asked for than remains
    Beyond = 4,
    // the helper count is 0 or above 1,024
    Helpers = 5,
    // a cut past the end
    Cut = 6,
}

// The adaptor or the call that refused.
#[derive(Clone, Copy, PartialEq, Eq, Debug)]
pub enum Giver {
    Interleave,
    Intersperse,
    Chunks,
    Chain,
    StepBy,
    Split,
    Open,
    Helpers,
    Advance,
    Answer,
}

#[derive(Clone, Copy, PartialEq, Eq, Debug)]
pub struct Refusal {
    pub reason: Reason,
    pub giver: Giver,
}

// Refuses where the test is true.
pub fn refuse_if(test: bool, reason: Reason, giver: Giver) -> Result<(), Refusal>
    ensures { result ≡ (if test then Err (record { reason = reason; giver = giver }) else Ok tt) }
{
    if test {
        return Err(Refusal { reason, giver });
    }
    Ok(())
}

impl From<Reason> for u64 {
    ghost from_gives = { λ reason n. n ≡ number_of reason };

    fn from(reason: Reason) -> u64 {
        reason as u64
    }
}

impl TryFrom<u64> for Reason {
    // the number, which no reason has
    type Error = u64;

    ghost try_from_gives = { λ n r. MatchResult r (λ reason. number_of reason ≡ n) (λ e. (e ≡ n) × Wordless n) };

    fn try_from(number: u64) -> Result<Reason, u64> {
        TABLE
            .iter()
            .copied()
            .find(|reason| u64::from(*reason) == number)
            .ok_or(number)
    }
}

impl Reason {
    // A method too, since the look-up by number gives it out as a text that stays.
    pub fn word(self) -> &'static str
        ensures { result.now ≡ word_of self }
    {
        match self {
            Reason::Zero => "zero",
            Reason::Overlong => "overlong",
            Reason::Slots => "slots",
            Reason::Beyond => "beyond",
            Reason::Helpers => "helpers",
            Reason::Cut => "cut",
        }
    }
}

// Its word.
impl fmt::Display for Reason {
    ghost output = { λ reason. Some (word_of reason) };

    fn fmt<W: fmt::Write>(&self, f: &mut fmt::Formatter<W>) -> fmt::Result {
        f.write_str(self.word())
    }
}

impl Giver {
    // A method too: its text stays, and making it can't fail.
    pub fn name(self) -> &'static str
        ensures { result.now ≡ name_of self }
    {
        match self {
            Giver::Interleave => "interleave",
            Giver::Intersperse => "intersperse",
            Giver::Chunks => "chunks",
            Giver::Chain => "chain",
            Giver::StepBy => "step_by",
            Giver::Split => "split",
            Giver::Open => "open",
            Giver::Helpers => "helpers",
            Giver::Advance => "advance",
            Giver::Answer => "answer",
        }
    }
}

// Its name.
impl fmt::Display for Giver {
    ghost output = { λ giver. Some (name_of giver) };

    fn fmt<W: fmt::Write>(&self, f: &mut fmt::Formatter<W>) -> fmt::Result {
        f.write_str(self.name())
    }
}

// The number, the word and the giver, as `1 zero (chunks)`.
impl fmt::Display for Refusal {
    ghost output = { λ e. Some (written e) };

    fn fmt<W: fmt::Write>(&self, f: &mut fmt::Formatter<W>) -> fmt::Result {
        let reason = self.reason;
        let number = u64::from(reason);
        let giver = self.giver;
        write!(f, "{number} {reason} ({giver})")
    }
}

const ROWS: usize = 6;

// A row for each reason, in the order of their numbers.
const TABLE: [Reason; ROWS] = [
    Reason::Zero,
    Reason::Overlong,
    Reason::Slots,
    Reason::Beyond,
    Reason::Helpers,
    Reason::Cut,
];

// The word of a refusal's number, or none where no refusal has it.
pub fn word(number: u64) -> Option<&'static [u8]>
    ensures { MatchOption result (Wordless number) (λ w. WordOf number w.now) }
{
    let reason = Reason::try_from(number).ok()?;
    Some(reason.word().as_bytes())
}
