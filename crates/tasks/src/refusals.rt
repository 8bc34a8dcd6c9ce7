// Why a call is not carried out: the numbers of document 01, "Why a call is not carried out", and of document 02's changes.
ghost use Rattle.std.specs.Prelude.{◌≡◌};
ghost use Rattle.tasks.specs.Refusals.{number_of, reason_of, refusal};

// What keeps a call from being carried out. No call answers `JobStillOpen`: by document 02, change 3, its number "stays empty"; it stands for the release as it
// was before. None answers `Unlisted` either, with a number that the documents do not give: it is there so that what is refused by a number can be told whichever
// number it is.
#[derive(Clone, Copy, PartialEq, Eq)]
pub enum Reason {
    UnsoundMachine,
    TextTooLong,
    BadNamesLine,
    TooManyTasks,
    BadValueLine,
    TaskOutOfRange,
    NoTask,
    CoresOutOfRange,
    NoSuchTask,
    ReleasedTooSoon,
    JobStillOpen,
    JobNotOpen,
    TableFull,
    NotAdmitted,
    SlotCoresOutOfRange,
    NeedOutOfRange,
    LeastAboveMost,
    NoHeldTask,
    BadLogLine,
    Unlisted(u32),
}

// A reason, and the value line or task that it concerns, or 0.
#[derive(Clone, Copy, PartialEq, Eq)]
pub struct Refusal {
    pub reason: Reason,
    pub place: u32,
}

impl Reason {
    // The reason that has this number.
    #[tactic(auto, using(crate::proofs::Reasons::unlisted), unfolding(crate::specs::Refusals::reason_of, crate::specs::Refusals::listed))]
    pub fn of(number: u32) -> Self
        ensures is { result ≡ reason_of number }
        ensures told { number_of result ≡ number }
    {
        match number {
            0 => Reason::UnsoundMachine,
            1 => Reason::TextTooLong,
            2 => Reason::BadNamesLine,
            3 => Reason::TooManyTasks,
            4 => Reason::BadValueLine,
            5 => Reason::TaskOutOfRange,
            6 => Reason::NoTask,
            7 => Reason::CoresOutOfRange,
            8 => Reason::NoSuchTask,
            9 => Reason::ReleasedTooSoon,
            10 => Reason::JobStillOpen,
            11 => Reason::JobNotOpen,
            12 => Reason::TableFull,
            13 => Reason::NotAdmitted,
            14 => Reason::SlotCoresOutOfRange,
            15 => Reason::NeedOutOfRange,
            16 => Reason::LeastAboveMost,
            17 => Reason::NoHeldTask,
            18 => Reason::BadLogLine,
            _ => Reason::Unlisted(number),
        }
    }

    // The number that the documents give it, or else its own.
    pub fn number(self) -> u32
        ensures { result ≡ number_of self }
    {
        match self {
            Reason::UnsoundMachine => 0,
            Reason::TextTooLong => 1,
            Reason::BadNamesLine => 2,
            Reason::TooManyTasks => 3,
            Reason::BadValueLine => 4,
            Reason::TaskOutOfRange => 5,
            Reason::NoTask => 6,
            Reason::CoresOutOfRange => 7,
            Reason::NoSuchTask => 8,
            Reason::ReleasedTooSoon => 9,
            Reason::JobStillOpen => 10,
            Reason::JobNotOpen => 11,
            Reason::TableFull => 12,
            Reason::NotAdmitted => 13,
            Reason::SlotCoresOutOfRange => 14,
            Reason::NeedOutOfRange => 15,
            Reason::LeastAboveMost => 16,
            Reason::NoHeldTask => 17,
            Reason::BadLogLine => 18,
            Reason::Unlisted(number) => number,
        }
    }

    // The refusal for this reason, with the value line or task that it concerns, or 0.
    pub fn at(self, place: u32) -> Refusal
        ensures { result ≡ refusal self place }
    {
        Refusal {
            reason: self,
            place,
        }
    }
}
