//! Statements.
ghost use Rattle.std.specs.Prelude.{◌≡◌};

use crate::command::Command;
use crate::form::Form;
use crate::query::Query;

/// A statement: a query or a command.
#[derive(Drop)]
pub enum Statement<'a> {
    Query(Query<'a>),
    Command(Command<'a>),
}

impl Statement<'_> {
    ghost use Rattle.statement_forms.specs.Form.{form_of};

    /// The form of the statement. Takes no memory.
    pub fn form(&self) -> Form
        ensures { result ≡ form_of self.now }
    {
        match self {
            Statement::Query(query) => query.form(),
            Statement::Command(command) => command.form(),
        }
    }
}
