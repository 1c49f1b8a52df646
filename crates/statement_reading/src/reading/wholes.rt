//! Readers of statements that are kept whole: the texts of objects, and the INSERTs of data files.
ghost use Rattle.std.specs.Prelude.{◌≡◌};
ghost use Rattle.object_forms.specs.Head.{HasHead};
ghost use Rattle.statement_forms.specs.Insert.{AnyInsert};
ghost use Rattle.statement_reading.specs.Readings.{IsRead};

use crate::fault::StatementFault;
use crate::insert::check_any_insert;
use object_texts::check_head;
use statement_forms::WholeText;

/// An object's text.
pub(crate) fn create_form<'a>(text: &'a [u8]) -> Result<WholeText<'a>, StatementFault>
    ensures { IsRead (λ whole bytes. HasHead whole × (bytes ≡ whole)) text.now result }
{
    match check_head(text) {
        Ok(()) => Ok(WholeText::of(text)),
        Err(place) => Err(StatementFault::BadStatement(place)),
    }
}

/// The INSERT of a data file.
pub(crate) fn insert_form<'a>(text: &'a [u8]) -> Result<WholeText<'a>, StatementFault>
    ensures { IsRead (λ whole bytes. AnyInsert whole × (bytes ≡ whole)) text.now result }
{
    match check_any_insert(text) {
        Ok(()) => Ok(WholeText::of(text)),
        Err(place) => Err(StatementFault::BadStatement(place)),
    }
}
