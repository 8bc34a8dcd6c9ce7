// Whether a record of cores is sound.
ghost use Rattle.std.specs.Prelude.{◌≡◌};
ghost use Rattle.cores.specs.Record.{cores_sound};

use tasks::limits::MAX_CORES;

// A flag for each core that a machine may have, and for 0.
const SEEN_FLAGS: usize = MAX_CORES as usize + 1;

// Whether no recorded core is above the most that a machine has, and none but 0, no core, is recorded twice.
pub fn cores_sound(recorded: &[u32]) -> bool
    ensures { result ≡ cores_sound recorded.now }
{
    let mut seen = [false; SEEN_FLAGS];
    for n in (0..recorded.len()).rev() {
        let core = recorded[n];
        if MAX_CORES < core {
            return false;
        }
        if core != 0 {
            if seen[core as usize] {
                return false;
            }
            seen[core as usize] = true;
        }
    }
    true
}
