//! What the program answers where it runs no net: statuses and lines, words, input, net texts, and
//! the commands `check` and `print`.
#![tactic(auto)]

mod answer;
mod checking;
mod input;
mod lines;
mod net_text;
mod printing;
mod status;
mod stopped;
mod words;
mod writing;

pub use answer::{Answer, done, refused};
pub use checking::check;
pub use input::input_of;
pub use lines::number_line;
pub use net_text::{AcceptedNet, checked, net_of, plain_of, refused_at, system_of};
pub use printing::print;
pub use status::{
    DONE, FAULTED, NET_REFUSED, NO_MEMORY, READ_FAULT, RECORD_REFUSED, WORDS_REFUSED, WRITE_FAULT,
};
pub use stopped::Stopped;
pub use words::command_of;
pub use writing::{write_answer, write_line};
