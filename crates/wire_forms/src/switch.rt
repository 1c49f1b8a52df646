//! Requests for another plugin.

/// A server's request to answer a new scramble with `mysql_native_password`. (MySQL source
/// documentation, `Protocol::AuthSwitchRequest`.)
#[derive(Clone, Copy)]
pub struct Switch {
    /// The bytes that `native_answer` answers.
    pub scramble: [u8; 20],
}
