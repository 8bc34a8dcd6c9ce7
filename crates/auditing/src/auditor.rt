// An auditor, which is given a log part by part and holds no more of it than one line.
ghost use Rattle.std.specs.Prelude.{◌≡◌};
ghost use Rattle.auditing.specs.Auditor.{as_told, broken, goes_on, refused_auditor, started_auditor, ended_by, on_next_line, kept_line, after_value_line, with_line, fed, answer_of};

use crate::judging::take_line;
use crate::line::read_line;
use machine::machine::Machine;
use machine::start::zero_machine;
use tasks::refusals::{Reason, Refusal};
use tasks::table::Table;
use text::bytes::same;

// Bytes of a line that are kept: one more than a line that is well formed can have without its byte 10.
pub const LINE_ROOM: usize = 33;

// A log is accepted, or its first offending value line, from 1, is told. No Option, whose words would not say which of the two is good.
#[derive(Clone, Copy, PartialEq, Eq)]
pub enum Audit {
    Accepted,
    Offends(u64),
}

// Why a log is not audited, and the line, value line or task that the reason concerns, or 0. The number of a log's line has 64 bits.
#[derive(Clone, Copy, PartialEq, Eq)]
pub struct LogRefusal {
    pub reason: Reason,
    pub place: u64,
}

impl From<Refusal> for LogRefusal {
    ghost from_gives = { λ refusal told. told ≡ as_told refusal };

    #[tactic(auto, unfolding(crate::specs::Auditor::as_told))]
    fn from(refusal: Refusal) -> LogRefusal {
        LogRefusal {
            reason: refusal.reason,
            place: refusal.place as u64,
        }
    }
}

// What was found so far, the machine after the lines before, the number of the line that is being read, 0 for the names line, and its first
// `used` bytes, of which no more than LINE_ROOM are kept: an array, since a log has no limit and nothing here may fail for want of memory.
#[derive(Clone, Copy)]
pub struct Auditor {
    pub answer: Result<Audit, LogRefusal>,
    pub machine: Machine,
    pub line: u64,
    pub kept: [u8; LINE_ROOM],
    pub used: usize,
}

impl Auditor {
    // An auditor of a table that was refused, by reading or by judging: there is nothing to audit.
    #[tactic(auto, unfolding(crate::specs::Auditor::refused_auditor))]
    pub fn refused(refusal: Refusal) -> Self
        ensures { result ≡ refused_auditor refusal }
    {
        Auditor {
            answer: Err(refusal.into()),
            machine: zero_machine(),
            line: 0,
            kept: [0; LINE_ROOM],
            used: 0,
        }
    }

    // An auditor before the first byte of a log over a table on so many cores.
    #[tactic(auto, unfolding(crate::specs::Auditor::started_auditor, crate::specs::Auditor::answer_after, crate::specs::Auditor::as_told))]
    pub fn start(table: Table, cores: u32) -> Self
        ensures { result ≡ started_auditor table cores }
    {
        let started = Machine::start(table, cores);
        Auditor {
            answer: started
                .outcome
                .map(|()| Audit::Accepted)
                .map_err(LogRefusal::from),
            machine: started.machine,
            line: 0,
            kept: [0; LINE_ROOM],
            used: 0,
        }
    }

    // Whether more of the log can change the answer.
    #[tactic(auto, unfolding(crate::specs::Auditor::goes_on))]
    pub fn goes_on(self) -> bool
        ensures { result ≡ goes_on self.answer }
    {
        matches!(self.answer, Ok(Audit::Accepted))
    }

    // That the line which is being read is broken.
    #[tactic(auto, unfolding(crate::specs::Auditor::broken))]
    fn broken_line(self) -> LogRefusal
        ensures { result ≡ broken self.line }
    {
        LogRefusal {
            reason: Reason::BadLogLine,
            place: self.line,
        }
    }

    // The auditor that has found what ends the audit.
    #[tactic(auto, unfolding(crate::specs::Auditor::ended_by))]
    fn ended_by(self, answer: Result<Audit, LogRefusal>) -> Self
        ensures { result ≡ ended_by self answer }
    {
        Auditor { answer, ..self }
    }

    // The auditor at the next line, with the machine after the one before. From the largest number of a line on the number stays.
    #[tactic(auto, unfolding(crate::specs::Auditor::on_next_line))]
    fn on_next_line(self, machine: Machine) -> Self
        ensures { result ≡ on_next_line self machine }
    {
        Auditor {
            machine,
            line: self.line.saturating_add(1),
            used: 0,
            ..self
        }
    }

    // The auditor after this value line.
    #[tactic(auto, unfolding(crate::specs::Auditor::after_value_line, crate::specs::Parts::line_read, crate::specs::Parts::line_judged))]
    fn value_line_ended(self, line: &[u8]) -> Self
        ensures { result ≡ after_value_line self line.now }
    {
        let Some(values) = read_line(line) else {
            return self.ended_by(Err(self.broken_line()));
        };
        let mut after = self.machine;
        if !take_line(&mut after, values) {
            return self.ended_by(Ok(Audit::Offends(self.line)));
        }
        self.on_next_line(after)
    }

    // The auditor after the line that it kept, whose byte 10 was met.
    #[tactic(auto, unfolding(crate::specs::Auditor::with_line, crate::specs::Auditor::kept_line, crate::specs::Log::is_names_line))]
    fn line_ended(self) -> Self
        ensures { result ≡ with_line self (kept_line self) }
    {
        // A copy of the line: a borrow of it would put the whole auditor into memory.
        let line = self.kept;
        let kept = &line[..self.used.min(LINE_ROOM)];
        if 0 < self.line {
            return self.value_line_ended(kept);
        }
        if !same(kept, b"RELEASED FINISHED RAN") {
            return self.ended_by(Err(self.broken_line()));
        }
        self.on_next_line(self.machine)
    }

    // The auditor after the next part of the log.
    pub fn feed(self, part: &[u8]) -> Self
        ensures { result ≡ fed self part.now }
    {
        let mut auditor = self;
        for &byte in part {
            if !auditor.goes_on() {
                return auditor;
            }
            if byte == b'\n' {
                auditor = auditor.line_ended();
            } else if auditor.used < LINE_ROOM {
                auditor.kept[auditor.used] = byte;
                auditor.used += 1;
            }
        }
        auditor
    }

    // The answer where the log ends here.
    #[tactic(auto, unfolding(crate::specs::Auditor::answer_of, crate::specs::Auditor::goes_on))]
    pub fn conclude(self) -> Result<Audit, LogRefusal>
        ensures { result ≡ answer_of self }
    {
        if self.goes_on() && (0 < self.used || self.line == 0) {
            return Err(self.broken_line());
        }
        self.answer
    }
}
