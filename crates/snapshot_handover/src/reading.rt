//! Reading through the session that holds the locks, and through a worker.
use crate::states::Frozen;
use crate::worker::Worker;
use link_traits::Link;
use my_session::{Reads, SessionFault};
use result_rows::Row;
use statement_forms::Query;

impl<L: Link> Reads for Frozen<L> {
    ghost use Rattle.my_session.specs.Session.{reader_view};

    ghost honest = { λ frozen. L.honest frozen.link };

    ghost same_origin = { λ one other. L.same_origin one.link other.link };

    ghost served = { λ frozen. L.served frozen.link };

    ghost tells = { λ frozen. L.tells frozen.link };

    ghost view = { reader_view L.Link };

    ghost origin_begins = { λ one. L.origin_begins one.link };

    ghost sound = { λ one honest. L.sound one.link honest };

    ghost origins_join = { λ one next last. L.origins_join one.link next.link last.link };

    fn query(&mut self, query: &Query<'_>) -> Result<u32, SessionFault> {
        self.session.query(query)
    }

    fn next_row(&mut self) -> Result<Option<Row<'_>>, SessionFault> {
        self.session.next_row()
    }
}

impl<L: Link> Reads for Worker<L> {
    ghost use Rattle.my_session.specs.Session.{reader_view};

    ghost honest = { λ worker. L.honest worker.session.link };

    ghost same_origin = { λ one other. L.same_origin one.session.link other.session.link };

    ghost served = { λ worker. L.served worker.session.link };

    ghost tells = { λ worker. L.tells worker.session.link };

    ghost view = { λ worker. reader_view L.Link worker.session };

    ghost origin_begins = { λ one. L.origin_begins one.session.link };

    ghost sound = { λ one honest. L.sound one.session.link honest };

    ghost origins_join = { λ one next last. L.origins_join one.session.link next.session.link last.session.link };

    fn query(&mut self, query: &Query<'_>) -> Result<u32, SessionFault> {
        self.session.query(query)
    }

    fn next_row(&mut self) -> Result<Option<Row<'_>>, SessionFault> {
        self.session.next_row()
    }
}
