//! The forms of statements.
ghost use Rattle.std.specs.Prelude.{◌≡◌};

/// What kind of statement one is, by which reports name it. Connecting has a form as well, though
/// it sends no statement.
#[derive(Clone, Copy, Debug, PartialEq, Eq)]
pub enum Form {
    Set,
    LockInstance,
    Flush,
    UnlockTables,
    UnlockInstance,
    Start,
    Commit,
    Rollback,
    Use,
    Create,
    Insert,
    ShowMasterStatus,
    ShowBinaryLogStatus,
    Select,
    ShowCreate,
    Connect,
}

impl Form {
    ghost use Rattle.statement_forms.specs.Form.{form_word};

    /// The word with which the form is named. Takes no memory.
    pub fn word(self) -> &'static str
        ensures { result.now ≡ form_word self }
    {
        match self {
            Form::Set => "SET",
            Form::LockInstance => "LOCK INSTANCE",
            Form::Flush => "FLUSH",
            Form::UnlockTables => "UNLOCK TABLES",
            Form::UnlockInstance => "UNLOCK INSTANCE",
            Form::Start => "START",
            Form::Commit => "COMMIT",
            Form::Rollback => "ROLLBACK",
            Form::Use => "USE",
            Form::Create => "CREATE",
            Form::Insert => "INSERT",
            Form::ShowMasterStatus => "SHOW MASTER STATUS",
            Form::ShowBinaryLogStatus => "SHOW BINARY LOG STATUS",
            Form::Select => "SELECT",
            Form::ShowCreate => "SHOW CREATE",
            Form::Connect => "CONNECT",
        }
    }
}
