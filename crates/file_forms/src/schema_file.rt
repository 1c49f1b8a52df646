//! What a schema file says.

use plain_data::Bytes;
use server_data::Settings;

/// What a schema file says of its object; the kind and the names stand in the file's name.
#[derive(Drop)]
pub struct SchemaFile {
    /// The settings under which the object is made; none for schemas and tables.
    pub settings: Option<Settings>,
    /// The text that makes it.
    pub text: Bytes,
}
