// Fleet lists: a fleet as text, a line for each consist.
#![tactic(auto)]

mod book_reader;
mod book_writer;
mod checks;
mod consists;
mod counter_reader;
mod cursor;
pub mod export;
mod forms;
mod identity_reader;
pub mod import;
mod line_reader;
mod list_reader;
mod name_reader;
mod tables;
mod text_size;
mod text_writer;
pub mod trips;
mod vehicle_reader;
