use flash_names::{Blob, MemorySink};
use flash_serve::{NetMaker, ServeStatus, run_serve};
use std::alloc::{AllocError, Global};
use std::io::{Read, Write};
use std::net::{Net, Shutdown, TcpListener, TcpStream};
use std::rt::Clock;
use std::test::Fail;
use std::thread::{sleep, spawn};
use std::time::Duration;
use std::{fs, io, process};

// How often a client tries to connect, a millisecond apart.
const TRIES: u32 = 5000;

fn words_of(alloc: Global, texts: &[&str]) -> Result<Vec<Blob>, AllocError> {
    let mut words = Vec::new(alloc);
    for text in texts {
        words.push(Blob::from_slice(alloc, text.as_bytes())?)?;
    }
    Ok(words)
}

// A port that nobody listens on.
fn free_port<R: Net<Stream = TcpStream, Listener = TcpListener>>(rt: &R) -> io::Result<u16> {
    Ok(
        TcpListener::bind(rt, ("127.0.0.1", 0))?
            .local_addr()?
            .port(),
    )
}

// Connects, once somebody listens.
fn connected<R: Net<Stream = TcpStream, Listener = TcpListener> + Clock>(
    rt: &R,
    port: u16,
) -> io::Result<TcpStream> {
    for _ in 0..TRIES {
        if let Ok(stream) = TcpStream::connect(rt, ("127.0.0.1", port)) {
            return Ok(stream);
        }
        sleep(rt, Duration::from_millis(1));
    }
    TcpStream::connect(rt, ("127.0.0.1", port))
}

// Sends all of this on a connection of its own, and answers whether these are all the replies.
fn is_answered<R: Net<Stream = TcpStream, Listener = TcpListener> + Clock>(
    rt: &R,
    alloc: Global,
    port: u16,
    sent: &[u8],
    replies: &[u8],
) -> bool {
    match exchange(rt, alloc, port, sent) {
        Ok(got) => got.as_slice() == replies,
        Err(_) => false,
    }
}

fn exchange<R: Net<Stream = TcpStream, Listener = TcpListener> + Clock>(
    rt: &R,
    alloc: Global,
    port: u16,
    sent: &[u8],
) -> io::Result<Vec<u8>> {
    let mut stream = connected(rt, port)?;
    stream.write_all(sent)?;
    stream.shutdown(Shutdown::Write)?;
    let mut got = Vec::new(alloc);
    stream.read_to_end(&mut got)?;
    Ok(got)
}

#[test]
fn serves_over_loopback(rt: HostRuntime) -> Result<(), Fail> {
    let alloc = rt.alloc();
    let port = free_port(&rt)?;
    let path = format!(in alloc; "/tmp/flash_serve_{}", process::id(rt.process()))?;
    let number = format!(in alloc; "{port}")?;
    let words = words_of(
        alloc,
        &[
            "serve",
            "--path",
            path.as_str(),
            "--port",
            number.as_str(),
            "--connections",
            "2",
            "--journal",
        ],
    )?;
    let client = spawn(&rt, move || {
        let set = is_answered(&rt, alloc, port, b"set k 5 0 3\r\nabc\r\n", b"STORED\r\n");
        let get = is_answered(
            &rt,
            alloc,
            port,
            b"get k\r\nquit\r\n",
            b"VALUE k 5 3\r\nabc\r\nEND\r\n",
        );
        set && get
    })?;
    let mut maker = NetMaker::new(rt);
    let mut sink = MemorySink::new(alloc, Vec::new(alloc));
    let status = run_serve(&rt, alloc, &words, &mut maker, &mut sink);
    let answered = client.join(&rt);
    fs::remove_file(&rt, path.as_str())?;
    assert_eq!(rt; status, ServeStatus::Done);
    assert!(rt; answered, "a reply");
    let first = format!(in alloc; "listening {port}\nmoved 0 read 0 hits 1 misses 0\njournal ")?;
    assert!(rt; sink.bytes().starts_with(first.as_bytes()), "the output");
    Ok(())
}
