//! Kinds of objects.
/// What kind of object a text makes.
#[derive(Clone, Copy, Debug, PartialEq, Eq)]
pub enum Kind {
    Schema,
    Table,
    Procedure,
    Function,
    View,
    Trigger,
    Event,
}
