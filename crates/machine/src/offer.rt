// An offer.
ghost use Rattle.std.specs.Prelude.{◌≡◌};
ghost use Rattle.machine.specs.Calls.{offer};

use crate::answer::{Answer, Report};
use crate::machine::Machine;
use tasks::refusals::Reason;
use tasks::task::Task;

impl Machine {
    // A task is offered: it is held, if the slack test admits the table with it on the machine's cores.
    #[tactic(auto, unfolding(crate::specs::Calls::offer, crate::specs::Calls::offer_after, crate::specs::Calls::refuse, crate::specs::Offer::offer_checked, judge::specs::SlackJudge::admission_values_of, tasks::specs::Outcome::first_refusal))]
    pub fn offer(self, task: Task) -> Answer
        ensures { result ≡ offer self task }
    {
        if !self.is_sound() {
            return Answer::refused(self, Reason::UnsoundMachine);
        }
        let verdict = self.offer_verdict(task);
        let Ok(admitted) = verdict else {
            return Answer {
                machine: self,
                outcome: verdict.map(|_| ()),
                report: Report::none(),
            };
        };
        if !admitted {
            return Answer::refused(self, Reason::NotAdmitted);
        }
        Answer::done(self.holding(Some(task)))
    }
}
