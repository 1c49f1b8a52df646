//! Messages of the server in a login, which are read from their payloads.
ghost use Rattle.std.specs.Prelude.{◌≡◌, ℕ, List, Result};
ghost use Rattle.wire_forms.specs.declared.login_fault.LoginFault.{LoginFault};

use wire_forms::LoginFault;

/// A message of the server in a login.
pub trait LoginMessage: Sized {
    /// What a payload says, or why it is none.
    ghost reading: { List ℕ → Result Self LoginFault };

    /// Reads the message from its payload. Takes no memory.
    fn read(payload: &[u8]) -> Result<Self, LoginFault>
        ensures { result ≡ reading payload.now };
}
