// Whether a job's record is sound.
ghost use Rattle.std.specs.Prelude.{◌≡◌};
ghost use Rattle.job.specs.Sound.{open_sound, closed_sound, job_sound};

use crate::job::Job;
use tasks::task::Task;

impl Job {
    // Whether the record is one that a job of the task can have. The gap of an open one reaches to its deadline.
    #[tactic(auto, unfolding(crate::specs::Sound::job_sound, crate::specs::Sound::gap_covers_left))]
    pub fn is_sound(self, task: Task) -> bool
        ensures { result ≡ job_sound task self }
    {
        if task.period < self.gap {
            return false;
        }
        if self.open {
            self.left <= self.gap && self.open_sound(task)
        } else {
            self.closed_sound()
        }
    }

    // An open job has 1 to D slots left and owes 1 to C.
    #[tactic(auto, unfolding(crate::specs::Sound::open_sound))]
    fn open_sound(self, task: Task) -> bool
        ensures { result ≡ open_sound task self }
    {
        1 <= self.left
            && self.left <= task.deadline
            && 1 <= self.budget
            && self.budget <= task.budget
    }

    // A closed one has none of either.
    #[tactic(auto, unfolding(crate::specs::Sound::closed_sound))]
    fn closed_sound(self) -> bool
        ensures { result ≡ closed_sound self }
    {
        self.left == 0 && self.budget == 0
    }
}
