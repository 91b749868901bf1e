//! A disk over an open file: the sectors that are written wait in memory until the sync, a read takes a page at once, and what the two
//! buffers do is proved of every file of bytes.
#![tactic(auto)]

mod buffered_disk;
mod buffered_file;
mod byte_file;
mod edit_bytes;
mod file;
mod file_event;
mod flush;
mod memory_file;
mod open_file;
mod page_over;
mod past;
mod put_bytes;
mod read_page;
mod refused;
mod waiting_page;
mod waiting_writes;
mod whole_page;

pub use buffered_disk::BufferedDisk;
pub use buffered_file::BufferedFile;
pub use byte_file::ByteFile;
pub use file::FileDisk;
pub use file_event::FileEvent;
pub use memory_file::MemoryFile;
pub use refused::FileRefused;
