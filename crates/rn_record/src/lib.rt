//! The text of a run: its firings, its end and its marks, each on lines of their own.
#![tactic(auto)]

mod entries;
mod entry_text;
mod first;
mod lines;
mod logs;
mod mark_text;
mod marks;
mod naming;
mod nets;
mod record;
mod values;

pub use entries::{put_binding, put_entry};
pub use entry_text::{EntryText, FiringLead};
pub use first::write_first;
pub use lines::BindingText;
pub use logs::{LogText, count_named, log_is_short, pour_log};
pub use mark_text::MarkText;
pub use marks::{put_marks, put_place_name};
pub use naming::{first_names, push_made, push_name};
pub use record::{write_run, write_told};
