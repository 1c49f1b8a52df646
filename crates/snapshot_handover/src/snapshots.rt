//! The snapshots of all workers.
ghost use Rattle.std.specs.Prelude.{◌≡◌, false, All, IfErr, MatchOption, OnOk};
ghost use Rattle.my_session.specs.Session.{IsFree, reader_view};
ghost use Rattle.snapshot_handover.specs.Snapshots.{AllOpen, HasSnapshot, IsLeastFault, MayOpen, NoneKept, OthersHaveSnapshots};

use crate::states::Frozen;
use crate::worker::Worker;
use link_traits::Link;
use my_session::SessionFault;
use std::thread;
use std::thread::Threads;

impl<L: Link + Send + Sync> Frozen<L> {
    /// Opens the snapshots of workers, each in a thread of its own, while this session is lent:
    /// after `Ok` each of them shows just what this session has seen, whatever others do meanwhile.
    /// Each is set to read repeatably first. A worker at which that fails keeps the fault, and the
    /// answer is the fault of the least number, with that number. The conditions are that this
    /// session hasn't failed and has no rows pending, that the same holds of each worker and none
    /// has kept a fault, and that on an honest link each is of this session's site. Takes no
    /// memory. A willing server refuses none of this to a worker that holds no lock and, on a quiet
    /// site, has seen what this session has: such a worker keeps a fault only where its link counts
    /// one, or more than 2^62 - 16,777,224 bytes were heard on it before the statement that failed.
    /// (MySQL 8.0 Reference Manual, 15.3.7 "SET TRANSACTION Statement", 15.3.1 "START TRANSACTION,
    /// COMMIT, and ROLLBACK Statements".)
    pub fn snapshots<R: Threads + Sync>(
        &self,
        rt: &R,
        workers: &mut [Worker<L>],
    ) -> Result<(), (usize, SessionFault)>
        requires free { IsFree (reader_view L.Link self.now) }
        requires may { All (MayOpen L.Link self.now.link) workers.old }

        ensures opened { AllOpen L.Link self.now.link workers.old workers.new }
        ensures ok { OnOk result (All (HasSnapshot L.Link self.now.link) workers.new) }
        ensures err { IfErr result (λ e. IsLeastFault workers.new e.0 e.1) }
    {
        open_all(rt, self, workers);
        match least_fault(workers) {
            Some(found) => Err(found),
            None => Ok(()),
        }
    }
}

// The least number of a worker that has kept a fault, and that fault.
fn least_fault<L: Link>(workers: &[Worker<L>]) -> Option<(usize, SessionFault)>
    ensures { MatchOption result (NoneKept workers.now) (λ e. IsLeastFault workers.now e.0 e.1) }
{
    let mut number: usize = 0;
    for worker in workers {
        if let Some(fault) = worker.kept() {
            return Some((number, fault));
        }
        number += 1;
    }
    None
}

// Opens each worker's snapshot in a thread of its own.
fn open_all<R: Threads + Sync, L: Link + Send + Sync>(
    rt: &R,
    holder: &Frozen<L>,
    workers: &mut [Worker<L>],
)
    requires alive { holder.now.has_failed ≡ false }
    requires may { All (MayOpen L.Link holder.now.link) workers.old }

    ensures opened { AllOpen L.Link holder.now.link workers.old workers.new }
    ensures has { OthersHaveSnapshots L.Link holder.now.link workers.new }
{
    let threads = workers.len();
    if threads > 0 {
        thread::for_each_mut(rt, workers, threads, &|_, worker| worker.open(holder));
    }
}
