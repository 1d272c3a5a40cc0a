//! Laws of what files hold: files over adjacent ranges of steps against one file over all of them, and the
//! files of steps against the sorted changes in them.
#![tactic(auto)]

mod laws;

pub use laws::{one_content_laws, parts_laws, steps_laws};
