//! What a program takes its bytes from and gives them to. Traits say what a read and a write may do, of a stream and of a
//! link of two sides, and count the outside's failures. Each comes in memory, where every byte is told and the failures are
//! planned, and over std's readers, writers and connections, with the bytes that those tell: a file, a standard stream and
//! a TCP connection tell none. Beside them stand what gives links, what tells the moment, and what tells a worker whether it
//! goes on.
#![tactic(auto)]

mod accepting;
mod crossing;
mod drain;
mod link;
mod list_clock;
mod machine;
mod memory_link;
mod memory_listener;
mod memory_sink;
mod memory_source;
mod open_gate;
mod pause_gate;
mod reading;
mod stream;
mod stream_door;
mod stream_link;
mod stream_sink;
mod stream_source;
mod wall_clock;
mod writing;

pub use crossing::{clock_and_gate_cross, tcp_is_send};
pub use link::{Clock, Gate, Link, LinkEnd, Listener};
pub use list_clock::ListClock;
pub use machine::{file_source, std_sink, std_source};
pub use memory_link::MemLink;
pub use memory_listener::MemListener;
pub use memory_sink::MemSink;
pub use memory_source::MemSource;
pub use open_gate::OpenGate;
pub use pause_gate::PauseGate;
pub use stream::{Failed, Sink, Source};
pub use stream_door::{StreamDoor, TcpDoor};
pub use stream_link::{StreamLink, TcpLink};
pub use stream_sink::StreamSink;
pub use stream_source::StreamSource;
pub use wall_clock::WallClock;
