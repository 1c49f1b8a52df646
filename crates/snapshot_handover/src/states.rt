//! The states of the lock session.
ghost use Rattle.std.specs.Prelude.{◌≡◌, IfErr, IfOk, MatchResult, Ok, Err};
ghost use Rattle.my_session.specs.Session.{IsFree, SessionView, reader_view};
ghost use Rattle.snapshot_handover.specs.Handover.{IsFrozen, IsGranted, IsGuarded, HasNothingOpen, IsReleased, IsThawed, Ran};
ghost use Rattle.snapshot_handover.specs.Willing.{IsHindered};
ghost use Rattle.statement_forms.specs.declared.command.Command.TheVariants.{LockInstance, FlushTables, UnlockTables, UnlockInstance};

use crate::step::step;
use link_traits::Link;
use my_session::{Session, SessionFault};
use statement_forms::Command;
use std::marker::Model;

/// A session that holds the backup lock: no object is made or dropped while it does.
#[derive(Drop)]
pub struct Guarded<L: Link> {
    session: Session<L>,
}

impl<L: Link> Model for Guarded<L> {
    ghost Value = { SessionView L };

    ghost view = { λ s. s.session };

    ghost invariant = { λ s. L.honest s.session.link → IsGuarded (L.served s.session.link).state };
}

/// A session that holds the read lock too: nobody commits while it does.
#[derive(Drop)]
pub struct Frozen<L: Link> {
    pub(crate) session: Session<L>,
}

impl<L: Link> Model for Frozen<L> {
    ghost Value = { SessionView L };

    ghost view = { λ s. s.session };

    ghost invariant = { λ s. L.honest s.session.link → IsFrozen (L.served s.session.link).state };
}

impl<L: Link> Guarded<L> {
    /// Takes the backup lock. The conditions are that the session hasn't failed, that no rows are
    /// pending, and that on an honest link it has no view and no open transaction. Takes no memory.
    /// An honest server that is willing answers `Ok` where the link counts no fault and at most
    /// 2^62 - 16,777,224 bytes were heard before. (MySQL 8.0 Reference Manual, 15.3.5 "LOCK
    /// INSTANCE FOR BACKUP and UNLOCK INSTANCE Statements".)
    pub fn lock(session: Session<L>) -> Result<Guarded<L>, (Session<L>, SessionFault)>
        requires free { IsFree (reader_view L.Link session) }
        requires is_idle { L.honest session.link → HasNothingOpen (L.served session.link).state }

        ensures ran { MatchResult result (λ made. Ran L.Link LockInstance session (Ok tt) made)
            (λ gone. Ran L.Link LockInstance session (Err gone.1) gone.0) }
        ensures guarded { IfOk result
            (λ made. L.honest made.link → IsGuarded (L.served made.link).state) }
        ensures willing { IfErr result (λ gone. IsHindered L.Link session gone.0.link) }
    {
        match step(session, &Command::LockInstance) {
            Ok(session) => Ok(Guarded { session }),
            Err(gone) => Err(gone),
        }
    }

    /// Takes the read lock: it is granted at the history that the link has seen then. The
    /// conditions are that the session hasn't failed and that no rows are pending. Takes no memory.
    /// A willing server answers `Ok` as at [`Guarded::lock`]. (MySQL 8.0 Reference Manual, 15.7.8.3
    /// "FLUSH Statement".)
    pub fn freeze(self) -> Result<Frozen<L>, (Session<L>, SessionFault)>
        requires free { IsFree (reader_view L.Link self) }

        ensures ran { MatchResult result (λ made. Ran L.Link FlushTables self (Ok tt) made)
            (λ gone. Ran L.Link FlushTables self (Err gone.1) gone.0) }
        ensures frozen { IfOk result
            (λ made. L.honest made.link → IsFrozen (L.served made.link).state) }
        ensures granted { IfOk result (λ made. L.honest made.link →
            IsGranted (L.served self.link).state (L.served made.link).state) }
        ensures willing { IfErr result (λ gone. IsHindered L.Link self gone.0.link) }
    {
        match step(self.session, &Command::FlushTables) {
            Ok(session) => Ok(Frozen { session }),
            Err(gone) => Err(gone),
        }
    }

    /// Gives the backup lock up. The conditions are that the session hasn't failed and that no rows
    /// are pending. Takes no memory. A willing server answers `Ok` as at [`Guarded::lock`]. (MySQL
    /// 8.0 Reference Manual, 15.3.5 "LOCK INSTANCE FOR BACKUP and UNLOCK INSTANCE Statements".)
    pub fn release(self) -> Result<Session<L>, (Session<L>, SessionFault)>
        requires free { IsFree (reader_view L.Link self) }

        ensures ran { MatchResult result (λ made. Ran L.Link UnlockInstance self (Ok tt) made)
            (λ gone. Ran L.Link UnlockInstance self (Err gone.1) gone.0) }
        ensures released { IfOk result
            (λ made. L.honest made.link → IsReleased (L.served made.link).state) }
        ensures willing { IfErr result (λ gone. IsHindered L.Link self gone.0.link) }
    {
        step(self.session, &Command::UnlockInstance)
    }

    /// The session, as it is. Sends nothing, and takes no memory.
    pub fn into_session(self) -> Session<L>
        ensures same { result ≡ self }
        ensures guarded { L.honest result.link → IsGuarded (L.served result.link).state }
    {
        self.session
    }
}

impl<L: Link> Frozen<L> {
    /// Gives the read lock up: the link has seen then just what it had at the grant. The conditions
    /// are that the session hasn't failed and that no rows are pending. Takes no memory. A willing
    /// server answers `Ok` as at [`Guarded::lock`]. (MySQL 8.0 Reference Manual, 15.3.6 "LOCK
    /// TABLES and UNLOCK TABLES Statements".)
    pub fn thaw(self) -> Result<Guarded<L>, (Session<L>, SessionFault)>
        requires free { IsFree (reader_view L.Link self) }

        ensures ran { MatchResult result (λ made. Ran L.Link UnlockTables self (Ok tt) made)
            (λ gone. Ran L.Link UnlockTables self (Err gone.1) gone.0) }
        ensures guarded { IfOk result
            (λ made. L.honest made.link → IsGuarded (L.served made.link).state) }
        ensures thawed { IfOk result (λ made. L.honest made.link →
            IsThawed (L.served self.link).state (L.served made.link).state) }
        ensures willing { IfErr result (λ gone. IsHindered L.Link self gone.0.link) }
    {
        match step(self.session, &Command::UnlockTables) {
            Ok(session) => Ok(Guarded { session }),
            Err(gone) => Err(gone),
        }
    }

    /// The session, as it is. Sends nothing, and takes no memory.
    pub fn into_session(self) -> Session<L>
        ensures same { result ≡ self }
        ensures frozen { L.honest result.link → IsFrozen (L.served result.link).state }
    {
        self.session
    }
}
