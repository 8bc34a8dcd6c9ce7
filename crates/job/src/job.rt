// The record of one task's job.
ghost use Rattle.std.specs.Prelude.{◌≡◌};
ghost use Rattle.job.specs.Job.{fresh_job, need_in_range, released_job, closed_job, is_urgent};

use tasks::task::Task;

// One task's job: whether it is open, the slots to its deadline, the slots still owed, and the slots until the next release is allowed. A flag and no Option:
// a machine made by hand may have a closed job with numbers, which is what number 0 is about (document 01).
#[derive(Clone, Copy)]
pub struct Job {
    pub open: bool,
    pub left: u32,
    pub budget: u32,
    pub gap: u32,
}

// A closed job with all its numbers 0.
#[tactic(auto, unfolding(crate::specs::Job::fresh_job))]
pub fn fresh_job() -> Job
    ensures { result ≡ fresh_job }
{
    Job {
        open: false,
        left: 0,
        budget: 0,
        gap: 0,
    }
}

// Whether a job of the task may need so many slots: 1 to the task's budget.
#[tactic(auto, unfolding(crate::specs::Job::need_in_range))]
pub fn need_in_range(task: Task, need: u32) -> bool
    ensures { result ≡ need_in_range task need }
{
    1 <= need && need <= task.budget
}

impl Job {
    // A job of the task that starts now and needs so many slots.
    #[tactic(auto, unfolding(crate::specs::Job::released_job))]
    pub fn released(task: Task, need: u32) -> Self
        ensures { result ≡ released_job task need }
    {
        Job {
            open: true,
            left: task.deadline,
            budget: need,
            gap: task.period,
        }
    }

    // The job closed, its gap kept.
    #[tactic(auto, unfolding(crate::specs::Job::closed_job))]
    pub fn closed(self) -> Self
        ensures { result ≡ closed_job self }
    {
        Job {
            open: false,
            left: 0,
            budget: 0,
            ..self
        }
    }

    // Whether the job has no time to spare.
    #[tactic(auto, unfolding(crate::specs::Job::is_urgent))]
    pub fn is_urgent(self) -> bool
        ensures { result ≡ is_urgent self }
    {
        self.open && self.left <= self.budget
    }
}
