// Audits of logs from another dispatcher: document 02, change 11.
#![tactic(auto)]

use crate::auditor::{Audit, Auditor, LogRefusal};
use tasks::table::Table;

pub mod auditor;
mod judging;
pub mod line;
mod running;

ghost use Rattle.std.specs.Prelude.{◌≡◌};
ghost use Rattle.auditing.specs.Audit.{audit_values_of, audited};

// The audit of a whole log over a table on so many cores.
#[tactic(auto, using(crate::proofs::FedAsWhole::fed_log))]
pub fn audit(table: Table, cores: u32, log: &[u8]) -> Result<Audit, LogRefusal>
    ensures { audit_values_of result ≡ audited table cores log.now }
{
    let auditor = Auditor::start(table, cores);
    let fed = auditor.feed(log);
    fed.conclude()
}
