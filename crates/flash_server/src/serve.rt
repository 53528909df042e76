use crate::status::{End, serve_end};
use flash_names::{Blob, Sink};
use flash_serve::{NetMaker, Reading, ServeStatus, Trouble, read_options, run_serve};
use std::alloc::{AllocError, Global};
use std::fs::File;
use std::net::{Net, TcpListener, TcpStream};
use std::rt::{Clock, Files};
use std::sync::Wait;
use std::thread::Threads;

/// Serves over TCP as the words say, or shows what they ask for, or says why they are refused.
pub fn serve_tcp<
    R: Threads
        + Wait
        + Net<Stream = TcpStream, Listener = TcpListener>
        + Files<File = File>
        + Clock
        + Print
        + Eprint
        + Copy
        + Send
        + 'static,
    K: Sink,
>(rt: &R, alloc: Global, words: &[Blob], sink: &mut K) -> End {
    let reading = match read_options(alloc, words) {
        Ok(reading) => reading,
        Err(AllocError) => return End::NoMemory,
    };
    match reading {
        Reading::Options(_) => {
            let mut maker = NetMaker::new(*rt);
            let status = run_serve(rt, alloc, words, &mut maker, sink);
            if status == ServeStatus::MakeFault {
                complain(rt, maker.trouble());
            }
            serve_end(status)
        }
        Reading::Shown(text) => match print!(rt; "{text}") {
            Ok(()) => End::Done,
            Err(_) => End::SinkFault,
        },
        Reading::Refused(line) => {
            let _ = eprintln!(rt; "flash_server: {line}");
            End::Refused
        }
    }
}

// Says on standard error what failed.
fn complain<R: Eprint>(rt: &R, trouble: Option<Trouble>) {
    let _ = match trouble {
        Some(Trouble::File) => eprintln!(rt; "flash_server: the file can't be made or prepared"),
        Some(Trouble::Listen) => eprintln!(rt;
            "flash_server: can't listen on this address and port"
        ),
        Some(Trouble::Accept) => eprintln!(rt; "flash_server: can't accept a connection"),
        None => eprintln!(rt; "flash_server: the outside failed"),
    };
}
