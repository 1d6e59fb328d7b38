//! The order that a call of the journal fails.
ghost use Rattle.std.specs.Prelude.{◌≡◌, ◌==◌, List};
ghost use Rattle.simplex_disk.specs.Calls.{Call};
ghost use Rattle.simplex_disk.specs.Orders.{IsOrdered, journal_answer, call_after};

use crate::disk::StopDisk;
use crate::error::DiskError;
use simplex_journal::JournalError;

/// Before a call of the journal: has the disk call of this number fail, if the call is the one that is to fail.
/// [orders-go-to-the-disk]
pub(crate) fn begin_call<D: StopDisk>(disk: &mut D, failing_call: u64, number: u64)
    ensures stands { (calls : List Call) → D.StandsFor disk.old calls → D.StandsFor disk.new calls }
    ensures faults { D.fault_count disk.new ≡ D.fault_count disk.old }
    ensures order { IsOrdered (failing_call == 1) number (D.order disk.old) (D.order disk.new) }
{
    if failing_call == 1 {
        disk.fail_next(number);
    }
}

/// After it: takes back what the disk was ordered, counts the call, and answers as it ended.
pub(crate) fn end_call<D: StopDisk, T>(
    disk: &mut D,
    failing_call: &mut u64,
    ended: Result<T, DiskError>,
) -> Result<T, JournalError>
    ensures answer { result ≡ journal_answer ended }
    ensures stands { (calls : List Call) → D.StandsFor disk.old calls → D.StandsFor disk.new calls }
    ensures faults { D.fault_count disk.new ≡ D.fault_count disk.old }
    ensures order { IsOrdered (failing_call.old == 1) 0 (D.order disk.old) (D.order disk.new) }
    ensures counted { failing_call.new ≡ call_after ended failing_call.old }
{
    if *failing_call == 1 {
        disk.fail_next(0);
    }
    match ended {
        Ok(value) => {
            *failing_call = failing_call.saturating_sub(1);
            Ok(value)
        }
        Err(DiskError::Failed) => {
            *failing_call = failing_call.saturating_sub(1);
            Err(JournalError::Failed)
        }
        // It is not counted.
        Err(DiskError::Memory) => Err(JournalError::Memory),
    }
}
