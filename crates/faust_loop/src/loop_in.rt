use faust_io::StdSource;
use faust_link::FrameReader;
use std::io::BufReader;
use std::net::TcpStream;

/// The end of a TCP stream at which frames come out. The bytes that have come are read at once, and then handed out.
pub type LoopIn = FrameReader<StdSource<BufReader<TcpStream>>>;
