// The command line of `serve`.
ghost use Rattle.std.specs.Prelude.{◌≡◌, Some, IfOk};
ghost use Rattle.flash_serve.specs.Words.{AreNumbers, AreSizes, IsReadingOf, connections_of, number_given, sessions_of};

use crate::numbers::{
    BUFFER_SIZE, BUFFERS, COMPACT_UNDER, CONNECTIONS, DROP_UNDER, IDLE_TIMEOUT, IO, ITEM_MAX,
    ITEM_SIZE, MAX_FRAG, MEMORY, NumberOption, PAGE_SIZE, PAGES, PORT, RECACHE, SESSIONS, WORKERS,
    number_within,
};
use crate::words::{has_word, value_of};
use clap::error::ErrorKind;
use clap::{Arg, ArgAction, Command};
use flash_names::{Blob, Geometry};
use std::alloc::{AllocError, Global};
use std::str;

const VERSION: &str = "1.6-flash";

/// What `serve` is to do.
#[derive(Drop)]
pub struct Options {
    /// The path of the flash file.
    pub path: String,
    /// The address to listen on.
    pub listen: String,
    /// The port; 0 lets the system choose.
    pub port: u16,
    /// How many connections are served, where there is a limit.
    pub connections: Option<u32>,
    /// How many are served at once.
    pub sessions: u32,
    /// After how many seconds without a byte a connection is closed; 0 is never.
    pub idle_timeout: u32,
    /// The sizes of the store.
    pub geometry: Geometry,
    /// Whether the journal is kept and printed.
    pub journal: bool,
}

/// What the words of a command line are.
#[derive(Drop)]
pub enum Reading {
    /// The options that they give.
    Options(Options),
    /// They ask for this text, of `--help` or `--version`.
    Shown(String),
    /// They are refused, for the reason in this line.
    Refused(String),
}

// A value that an option doesn't take.
#[derive(Clone, Copy)]
struct BadValue {
    option: NumberOption,
}

/// Reads the words after the program's name: `serve` and its options.
pub fn read_options(alloc: Global, words: &[Blob]) -> Result<Reading, AllocError>
    ensures { IfOk result (IsReadingOf words.now) }
{
    let Some(texts) = texts_of(alloc, words)? else {
        return Ok(Reading::Refused("a word isn't UTF-8".to_string(alloc)?));
    };
    let command = serve_command(alloc)?;
    match command.try_get_matches_from(texts.as_slice()) {
        Ok(_) => reading_of(alloc, words),
        Err(error) => {
            let text = format!(in alloc; "{error}")?;
            match error.kind() {
                ErrorKind::OutOfMemory => Err(AllocError),
                ErrorKind::DisplayHelp => Ok(Reading::Shown(text)),
                ErrorKind::DisplayVersion => Ok(Reading::Shown(text)),
                _ => Ok(Reading::Refused(first_lines(alloc, text.as_str())?)),
            }
        }
    }
}

// The words as texts, or `None` where one isn't UTF-8.
fn texts_of(alloc: Global, words: &[Blob]) -> Result<Option<Vec<&str>>, AllocError> {
    let mut texts = Vec::with_capacity(alloc, words.len())?;
    for word in words {
        match str::from_utf8(word.bytes()) {
            Ok(text) => texts.push(text)?,
            Err(_) => return Ok(None),
        }
    }
    Ok(Some(texts))
}

// The first line of a text, and behind it the second where there is one: an error names there what it is about.
fn first_lines(alloc: Global, text: &str) -> Result<String, AllocError> {
    let mut lines = text.lines();
    let first = lines.next().unwrap_or("");
    let second = lines.next().unwrap_or("");
    if second.is_empty() {
        return first.to_string(alloc);
    }
    format!(in alloc; "{first} {}", second.trim())
}

// The command with each of its options.
fn serve_command<'a>(alloc: Global) -> Result<Command<'a>, AllocError> {
    let path = Arg::new(alloc, "path")
        .long("path")
        .value_name("file")
        .required(true)
        .help("The path of the flash file, which is made where it isn't there");
    let listen = Arg::new(alloc, "listen")
        .long("listen")
        .value_name("address")
        .default_value("127.0.0.1")
        .help("The address to listen on");
    let command = Command::new(alloc, "flash_server serve")
        .version(VERSION)
        .about("Serves the memcached protocol over TCP")
        .arg(path)?
        .arg(listen)?;
    with_flags(alloc, with_sizes(alloc, with_serving(alloc, command)?)?)
}

// With the options of the server.
fn with_serving<'a>(alloc: Global, command: Command<'a>) -> Result<Command<'a>, AllocError> {
    command
        .arg(default_arg(
            alloc,
            PORT,
            "The port to listen on, 0 to 65535; 0 lets the system choose",
        ))?
        .arg(default_arg(
            alloc,
            CONNECTIONS,
            "How many connections are served before the server stops, 1 to 1000000",
        ))?
        .arg(default_arg(alloc, WORKERS, "The number of workers, 1 to 16"))?
        .arg(number_arg(
            alloc,
            SESSIONS,
            "How many connections are served at once, 1 to 4096 [default: the number of workers]",
        ))?
        .arg(default_arg(
            alloc,
            IDLE_TIMEOUT,
            "After how many seconds without a byte a connection is closed; 0 is never",
        ))?
        .arg(default_arg(
            alloc,
            IO,
            "The number of threads that read from flash, 1 to 8",
        ))
}

// With the options that are sizes of the store.
fn with_sizes<'a>(alloc: Global, command: Command<'a>) -> Result<Command<'a>, AllocError> {
    command
        .arg(default_arg(alloc, MEMORY, "The bytes of memory for items"))?
        .arg(default_arg(
            alloc,
            ITEM_SIZE,
            "The least bytes of a value that moves to flash",
        ))?
        .arg(default_arg(alloc, ITEM_MAX, "The most bytes of a value"))?
        .arg(default_arg(alloc, PAGES, "The number of pages of the file"))?
        .arg(default_arg(alloc, PAGE_SIZE, "The bytes of a page"))?
        .arg(default_arg(alloc, BUFFER_SIZE, "The bytes of a write buffer"))?
        .arg(default_arg(alloc, BUFFERS, "The number of write buffers"))?
        .arg(default_arg(
            alloc,
            COMPACT_UNDER,
            "Pages are compacted where at most so many are free",
        ))?
        .arg(default_arg(
            alloc,
            DROP_UNDER,
            "Pages are evicted where at most so many are free",
        ))?
        .arg(default_arg(
            alloc,
            MAX_FRAG,
            "A page is compacted where at most so many percent of it are live",
        ))?
        .arg(default_arg(
            alloc,
            RECACHE,
            "Each n-th read from flash brings its value back to memory; 0 is never",
        ))
}

fn number_arg<'a>(alloc: Global, option: NumberOption, help: &'a str) -> Arg<'a> {
    Arg::new(alloc, option.name)
        .long(option.name)
        .value_name("n")
        .help(help)
}

fn default_arg<'a>(alloc: Global, option: NumberOption, help: &'a str) -> Arg<'a> {
    number_arg(alloc, option, help).default_value(option.default)
}

fn with_flags<'a>(alloc: Global, command: Command<'a>) -> Result<Command<'a>, AllocError> {
    let forever = Arg::new(alloc, "forever")
        .long("forever")
        .action(ArgAction::SetTrue)
        .help("Serve without a limit on connections");
    let journal = Arg::new(alloc, "journal")
        .long("journal")
        .action(ArgAction::SetTrue)
        .help("Keep the journal of the store in memory, and print it at the end");
    command.arg(forever)?.arg(journal)
}

// The options, or the line of the first value that one doesn't take.
fn reading_of(alloc: Global, words: &[Blob]) -> Result<Reading, AllocError>
    ensures { IfOk result (IsReadingOf words.now) }
{
    let Some(path) = value_of(words, b"path") else {
        return Ok(Reading::Refused("error: --path isn't given".to_string(alloc)?));
    };
    let listen = value_of(words, b"listen").unwrap_or(b"127.0.0.1");
    let (Ok(path), Ok(listen)) = (str::from_utf8(path), str::from_utf8(listen)) else {
        return Ok(Reading::Refused("a word isn't UTF-8".to_string(alloc)?));
    };
    match numbers_of(words) {
        Ok(numbers) => Ok(Reading::Options(Options {
            path: path.to_string(alloc)?,
            listen: listen.to_string(alloc)?,
            port: numbers.port,
            connections: numbers.connections,
            sessions: numbers.sessions,
            idle_timeout: numbers.idle_timeout,
            geometry: numbers.geometry,
            journal: has_word(words, b"--journal"),
        })),
        Err(bad) => Ok(Reading::Refused(bad_value_line(alloc, bad)?)),
    }
}

fn bad_value_line(alloc: Global, bad: BadValue) -> Result<String, AllocError> {
    let option = bad.option;
    format!(in alloc;
        "error: --{} takes a number from {} to {}",
        option.name, option.least, option.most
    )
}

// The options that are numbers.
#[derive(Clone, Copy)]
struct Numbers {
    port: u16,
    connections: Option<u32>,
    sessions: u32,
    idle_timeout: u32,
    geometry: Geometry,
}

fn numbers_of(words: &[Blob]) -> Result<Numbers, BadValue>
    ensures { IfOk result (AreNumbers words.now) }
{
    let port = number_u16(words, PORT)?;
    let sessions = sessions_of(words)?;
    number_u32(words, IO)?;
    Ok(Numbers {
        port,
        connections: connections_of(words)?,
        sessions,
        idle_timeout: number_u32(words, IDLE_TIMEOUT)?,
        geometry: geometry_of(words)?,
    })
}

// How many connections are served, where there is a limit.
fn connections_of(words: &[Blob]) -> Result<Option<u32>, BadValue>
    ensures { IfOk result (λ connections. connections ≡ connections_of words.now) }
{
    if has_word(words, b"--forever") {
        return Ok(None);
    }
    Ok(Some(number_u32(words, CONNECTIONS)?))
}

// How many connections are served at once.
fn sessions_of(words: &[Blob]) -> Result<u32, BadValue>
    ensures { IfOk result (λ n. sessions_of words.now ≡ Some n) }
{
    let workers = number_u32(words, WORKERS)?;
    let Some(word) = value_of(words, b"sessions") else {
        return Ok(workers);
    };
    match number_within(word, 1, 4096) {
        Some(number) => Ok(number as u32),
        None => Err(BadValue { option: SESSIONS }),
    }
}

fn geometry_of(words: &[Blob]) -> Result<Geometry, BadValue>
    ensures { IfOk result (AreSizes words.now) }
{
    Ok(Geometry {
        memory: number(words, MEMORY)?,
        item_size: number_u32(words, ITEM_SIZE)?,
        item_max: number_u32(words, ITEM_MAX)?,
        pages: number_u32(words, PAGES)?,
        page_size: number_u32(words, PAGE_SIZE)?,
        buffer_size: number_u32(words, BUFFER_SIZE)?,
        buffers: number_u32(words, BUFFERS)?,
        compact_under: number_u32(words, COMPACT_UNDER)?,
        drop_under: number_u32(words, DROP_UNDER)?,
        max_frag: number_u32(words, MAX_FRAG)?,
        recache: number_u32(words, RECACHE)?,
    })
}

// The number that the words give to this option.
fn number(words: &[Blob], option: NumberOption) -> Result<u64, BadValue>
    ensures { IfOk result (λ n. number_given option.name.now option.default.now option.least option.most words.now
        ≡ Some n) }
{
    let word = value_of(words, option.name.as_bytes()).unwrap_or(option.default.as_bytes());
    match number_within(word, option.least, option.most) {
        Some(number) => Ok(number),
        None => Err(BadValue { option }),
    }
}

fn number_u32(words: &[Blob], option: NumberOption) -> Result<u32, BadValue>
    ensures { IfOk result (λ n. number_given option.name.now option.default.now option.least option.most words.now
        ≡ Some n) }
{
    let number = number(words, option)?;
    u32::try_from(number).map_err(|_| BadValue { option })
}

fn number_u16(words: &[Blob], option: NumberOption) -> Result<u16, BadValue>
    ensures { IfOk result (λ n. number_given option.name.now option.default.now option.least option.most words.now
        ≡ Some n) }
{
    let number = number(words, option)?;
    u16::try_from(number).map_err(|_| BadValue { option })
}
