//! Laws of what histories do to a database: what holds after every history, and how histories that
//! are carried out beside one another leave it. Nothing here runs: the contracts are the laws, over the
//! data of `server_data`.
#![tactic(auto)]

mod laws;

pub use laws::{
    interleavings_agree, lists_over_different_tables_commute, lists_that_put_rows_commute,
    objects_stand_once, one_list_is_its_interleaving, schemas_are_there,
};
