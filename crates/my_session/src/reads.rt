//! What reading a database goes through.
ghost use Rattle.std.specs.Prelude.{◌≡◌, ◌<◌, ℕ, Bool, false, IfErr};
ghost use Rattle.std.specs.Borrow.{sem};
ghost use Rattle.std.specs.Io.BufRead.{Rests};
ghost use Rattle.honest_server.specs.Link.{IsSoundLink, ServedLink};
ghost use Rattle.my_session.specs.Asked.{AsksServed};
ghost use Rattle.my_session.specs.Coming.{NextServed, reached_by};
ghost use Rattle.my_session.specs.Session.{ReaderView, KeepsReader, IsSameServer, MayAsk, IsOfStatement, Asks, NextRow, PendingAfter};

use crate::fault::SessionFault;
use result_rows::Row;
use statement_forms::Query;

/// What all reading of a database goes through: a query is asked, and its rows come one by one.
pub trait Reads {
    /// Whether the server is honest.
    ghost honest: { Self → Type 0 };

    /// Both are of one site, and one may have become the other.
    ghost same_origin: { Self → Self → Type 0 };

    /// What waits on its link, and what an honest server keeps of that.
    ghost served: { Self → ServedLink };

    /// Whether it tells what goes over its link.
    ghost tells: { Self → Type 0 };

    /// What goes over its link, how often that has failed, what the greeting said of the server, whether
    /// the reader has failed, and the rows that are pending.
    ghost view: { Self → ReaderView };

    /// Asks a query, and answers how many columns its rows have. Where the query is a SHOW CREATE of
    /// anything but a database, `USE` of its schema is sent first, and what is refused there is its
    /// answer. The conditions are that the query has a text, that the reader hasn't failed and that
    /// no rows are pending. A reply without columns is `Garbled`, and never comes from an honest server:
    /// its rows are one answer to the query that the text is read as, perhaps broken off by an ERR.
    /// (MySQL source documentation, `COM_QUERY`.)
    fn query(&mut self, query: &Query<'_>) -> Result<u32, SessionFault>
        requires may { MayAsk query.now (view self.old) }

        ensures server { IsSameServer honest same_origin served self.old self.new }
        ensures reader { KeepsReader (tells self.old) (view self.old) result (tells self.new)
            (view self.new) }
        ensures pending { PendingAfter (view self.old).peer.ends query.now result
            (view self.new).pending }
        ensures fault { IfErr result IsOfStatement }
        ensures asks { tells self.old → Asks (view self.old).peer.ends query.now
            (view self.old).wire result (view self.new).wire }
        ensures served { honest self.old → AsksServed query.now (served self.old).state result
            (reached_by (view self.new) (served self.new)) };

    /// The next row, lent until the next call, or `None` exactly at the end of the rows. The
    /// conditions are that the reader hasn't failed and that rows are pending. Either comes in bytes
    /// that weren't heard before, and no more than 2^62 are heard in all, so a loop over the rows
    /// ends. Over an honest server each row is the first of those that are still to come. Takes no memory
    /// but that of the row's own message.
    fn next_row(&mut self) -> Result<Option<Row<'_>>, SessionFault>
        requires alive { (view self.old).has_failed ≡ false }
        requires pending { 0 < (view self.old).pending.reading.columns }
        requires rows { (view self.old).pending.reading.awaited ≡ 0 }

        ensures* { sem 𝓛 (Rests Self.row self.entry (λ new. NextRow (tells self.old) (view self.old)
            result (tells new) (view new) × IsSameServer honest same_origin served self.old new ×
            (honest self.old → NextServed (view self.old).pending.form
            (reached_by (view self.old) (served self.old)) result
            (reached_by (view new) (served new))))) };

    /// A reader is of one origin with itself.
    ghost origin_begins: { (one : Self) → same_origin one one };

    /// What an honest server keeps of its link is sound.
    ghost sound: { (one : Self) → honest one → IsSoundLink (served one) };

    /// What a reader becomes stays of one origin.
    ghost origins_join: { (one next last : Self) → same_origin one next → same_origin next last → same_origin one last };
}
