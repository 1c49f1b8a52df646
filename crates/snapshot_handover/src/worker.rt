//! The workers of a dump.
ghost use Rattle.std.specs.Prelude.{◌≡◌, ◌||◌, false, Some, None, OnErr, OnOk, is_some};
ghost use Rattle.my_session.specs.Session.{IsFree, reader_view};
ghost use Rattle.snapshot_handover.specs.Handover.{MayShow, Ran, RanBy, ShowsSeen, WorkerView};
ghost use Rattle.snapshot_handover.specs.Snapshots.{HasSnapshot, MayOpen, Opens};
ghost use Rattle.snapshot_handover.specs.Willing.{IsHindered, IsHinderedBeside};
ghost use Rattle.statement_forms.specs.declared.command.Command.TheVariants.{RepeatableRead, StartSnapshot};

use crate::states::Frozen;
use link_traits::Link;
use my_session::{Session, SessionFault};
use statement_forms::Command;
use std::marker::Model;

/// A session that reads rows, and the fault at which its snapshot wasn't opened.
#[derive(Drop)]
pub struct Worker<L: Link> {
    pub(crate) session: Session<L>,
    fault: Option<SessionFault>,
}

impl<L: Link> Model for Worker<L> {
    ghost Value = { WorkerView L };

    ghost view = { λ s. record { session = s.session; fault = s.fault } };

    ghost invariant = { λ s. L.honest s.session.link → MayShow (L.served s.session.link).state };
}

impl<L: Link> Worker<L> {
    /// A worker over a session. The condition is that on an honest link it has no transactions of
    /// its own, and none open. Sends nothing, and takes no memory.
    pub fn new(session: Session<L>) -> Worker<L>
        requires may { L.honest session.link → MayShow (L.served session.link).state }

        ensures { result ≡ record { session = session; fault = None } }
    {
        Worker {
            session,
            fault: None,
        }
    }

    /// Sets that its transactions read repeatably: what its next snapshot shows stays. The
    /// conditions are that its session hasn't failed and that no rows are pending. Takes no memory.
    /// A willing server answers `Ok` as at [`crate::Guarded::lock`]. (MySQL 8.0 Reference Manual,
    /// 15.3.7 "SET TRANSACTION Statement".)
    #[tactic(auto, using(crate::proofs::Workers::isolated))]
    pub fn isolate(&mut self) -> Result<(), SessionFault>
        requires free { IsFree (reader_view L.Link self.old.session) }

        ensures ran { Ran L.Link RepeatableRead self.old.session result self.new.session }
        ensures fault { self.new.fault ≡ self.old.fault }
        ensures may { L.honest self.new.session.link →
            MayShow (L.served self.new.session.link).state }
        ensures willing { OnErr result (IsHindered L.Link self.old.session self.new.session.link) }
    {
        self.session.run(&Command::RepeatableRead)
    }

    /// Opens a snapshot while the session that holds the read lock is lent: it shows just what that
    /// one has seen. The conditions are that neither session has failed, that no rows are pending
    /// here, and that on an honest link both are of one site. Takes no memory. A willing server
    /// answers `Ok` as at [`crate::Guarded::lock`], where this session holds no lock and, on a
    /// quiet site, both have seen the same. (MySQL 8.0 Reference Manual, 15.3.1 "START TRANSACTION,
    /// COMMIT, and ROLLBACK Statements".)
    #[tactic(auto, using(crate::proofs::Workers::opened, crate::proofs::Workers::shown))]
    pub fn open_beside(&mut self, holder: &Frozen<L>) -> Result<(), SessionFault>
        requires free { IsFree (reader_view L.Link self.old.session) }
        requires alive { holder.now.has_failed ≡ false }
        requires one_site { L.honest self.old.session.link →
            L.same_origin self.old.session.link holder.now.link }

        ensures ran { RanBy L.Link (Some holder.now.link) StartSnapshot self.old.session result
            self.new.session }
        ensures fault { self.new.fault ≡ self.old.fault }
        ensures may { L.honest self.new.session.link →
            MayShow (L.served self.new.session.link).state }
        ensures shows { L.honest self.old.session.link →
            ShowsSeen L.Link holder.now.link result self.new.session.link }
        ensures willing { OnErr result
            (IsHinderedBeside L.Link holder.now.link self.old.session self.new.session.link) }
    {
        // Known by this: the holder's link hasn't failed.
        let _ = holder.session.failed();
        self.session
            .run_beside(&holder.session, &Command::StartSnapshot)
    }

    /// Opens its snapshot beside the session that holds the read lock, once it is set to read
    /// repeatably. Where one of the two fails, it keeps the fault. The conditions are that it and
    /// the holder are free, that it has kept no fault, and that on an honest link both are of one
    /// site. Takes no memory.
    pub(crate) fn open(&mut self, holder: &Frozen<L>)
        requires alive { holder.now.has_failed ≡ false }
        requires may { MayOpen L.Link holder.now.link self.old }

        ensures opens { Opens L.Link holder.now.link self.old self.new }
        ensures has { self.new.fault ≡ None → HasSnapshot L.Link holder.now.link self.new }
    {
        match self.isolate() {
            Ok(()) => {
                if let Err(fault) = self.open_beside(holder) {
                    self.fault = Some(fault);
                }
            }
            Err(fault) => self.fault = Some(fault),
        }
    }

    /// The fault that it has kept. Takes no memory.
    pub(crate) fn kept(&self) -> Option<SessionFault>
        ensures { result ≡ self.now.fault }
    {
        self.fault
    }

    /// Whether its session has failed, or it has kept the fault at which its snapshot wasn't
    /// opened. Takes no memory.
    pub fn failed(&self) -> bool
        ensures { result ≡ (self.now.session.has_failed || is_some self.now.fault) }
    {
        self.session.failed() || self.fault.is_some()
    }

    /// The session, as it is. Sends nothing, and takes no memory.
    pub fn into_session(self) -> Session<L>
        ensures same { result ≡ self.session }
        ensures may { L.honest result.link → MayShow (L.served result.link).state }
    {
        self.session
    }
}
