//! Lines in, lines out, for any program: sources read in blocks, lines cut and kept, the numbers of
//! a line, decimal text, the one loop over `put`, the engine for commands over lines of input, an
//! input and an output tied to one another, and files read whole by their paths.
#![tactic(auto)]

mod content;
mod digits;
mod fault;
mod input;
pub mod laws;
mod line_part;
mod lines;
mod output;
mod refusal;
mod storage;
mod text_line;
mod tied;

pub use content::{Numbers, read_numbers};
pub use fault::IoFault;
pub use input::{MAX_READ, read_again, read_all};
pub use lines::{LineCommand, MAX_CONTENT, answer_lines, split_content};
pub use output::emit;
pub use refusal::LineRefusal;
pub use storage::{
    Disk, FilePath, FirstUnread, Storage, StorageFault, read_file, read_files, read_whole,
};
pub use text_line::{ROOM, TextLine};
pub use tied::{BUFFER, TiedReader, TiedWriter};
