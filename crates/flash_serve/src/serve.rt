// Serves the store.
ghost use Rattle.std.specs.Prelude.{◌≡◌, ◌≤◌, [], IfOk, IfErr, OnOk};
ghost use Rattle.std.specs.Option.{ForSome};
ghost use Rattle.std.specs.Arc.{arc_value};
ghost use Rattle.flash_core.specs.SharedStore.{geometry_of, own_steps, told_of};
ghost use Rattle.flash_turn.specs.Passes.{IsPassOf, fixed_of, seen};
ghost use Rattle.flash_core.specs.Open.{IsRefusedFor};
ghost use Rattle.flash_names.specs.Shared.{Begins};
ghost use Rattle.flash_serve.specs.Making.{Tried};
ghost use Rattle.flash_serve.specs.Output.{IsClosing, listening_text};
ghost use Rattle.flash_serve.specs.Serving.{Ends, EndsLast, EndsOver, HasBegun, IsAccepted, IsLastText, IsUnopened, IsUnwritten, Stops, change_of, count_after, first_told, status_of};
ghost use Rattle.flash_streams.specs.Writing.{IsWritten};
ghost use Rattle.flash_names.specs.Faults.{next_count};

use crate::crew::{Crew, new_job, new_keeper};
use crate::job::Store;
use crate::kept::Recorded;
use crate::maker::{MakeError, Maker};
use crate::options::{Options, Reading, read_options};
use crate::output::{closing_output, listening_line};
use flash_core::{Core, OpenError, OpenWhy};
use flash_counters::Counting;
use flash_entry::{Counted, Journal, Kept};
use flash_names::{Blob, Geometry, Sink, SinkFault};
use flash_streams::write_all;
use flash_turn::{Pass, Turn};
use std::alloc::{AllocError, Global};
use std::sync::{Arc, Wait};
use std::thread::Threads;

/// How a server ended.
#[derive(Clone, Copy, Debug, PartialEq, Eq)]
pub enum ServeStatus {
    /// It served as many connections as it was to.
    Done,
    /// The words are refused. Nothing was made or written.
    Usage,
    /// The geometry breaks the rule of this number. Nothing was made or written.
    Geometry(u32),
    /// A write to the sink failed.
    SinkFault,
    /// Memory ran out.
    NoMemory,
    /// The maker failed.
    MakeFault,
}

/// Serves the store as the words say, `serve` and its options.
pub fn run_serve<R: Threads + Wait + Copy + Send + 'static, M: Maker, K: Sink>(
    rt: &R,
    alloc: Global,
    words: &[Blob],
    maker: &mut M,
    sink: &mut K,
) -> ServeStatus
    ensures refused { result ≡ ServeStatus.Usage → (maker.new ≡ maker.old) × (sink.new ≡ sink.old) }
    ensures ends { Ends words.now (change_of M.faults M.connections K.faults K.held
        maker.old maker.new sink.old sink.new) result }
{
    let Ok(reading) = read_options(alloc, words) else {
        return ServeStatus::NoMemory;
    };
    match reading {
        Reading::Options(options) => serve_options(rt, alloc, &options, maker, sink),
        Reading::Shown(_) => ServeStatus::Usage,
        Reading::Refused(_) => ServeStatus::Usage,
    }
}

fn serve_options<R: Threads + Wait + Copy + Send + 'static, M: Maker, K: Sink>(
    rt: &R,
    alloc: Global,
    options: &Options,
    maker: &mut M,
    sink: &mut K,
) -> ServeStatus
    ensures { EndsOver options.now (first_told options.now.journal)
        (change_of M.faults M.connections K.faults K.held maker.old maker.new sink.old sink.new) result }
{
    if options.journal {
        serve_over(rt, alloc, options, Kept::new(alloc), maker, sink)
    } else {
        serve_over(rt, alloc, options, Counted::new(), maker, sink)
    }
}

// Serves over this journal, which has no entry.
fn serve_over<
    R: Threads + Wait + Copy + Send + 'static,
    J: Recorded + Send + Drop + 'static,
    M: Maker,
    K: Sink,
>(rt: &R, alloc: Global, options: &Options, journal: J, maker: &mut M, sink: &mut K) -> ServeStatus
    requires { ForSome (J.told journal) (λ entries. entries ≡ []) }
    ensures { EndsOver options.now (J.told journal)
        (change_of M.faults M.connections K.faults K.held maker.old maker.new sink.old sink.new) result }
{
    let (store, mut pass) = match opened(alloc, options.geometry, journal) {
        Ok(opened) => opened,
        Err(status) => return status,
    };
    if let Err(status) = begin(alloc, options, maker, sink) {
        return status;
    }
    match serve_all(rt, alloc, &store, &mut pass, options, maker) {
        Ok(()) => end(rt, alloc, &store, &mut pass, sink),
        Err(error) => status_of(error),
    }
}

// A lock round an empty store of this geometry, and its first pass.
fn opened<J: Recorded + Drop>(
    alloc: Global,
    geometry: Geometry,
    journal: J,
) -> Result<(Store<Counting<J>>, Pass<Core<Counting<J>>>), ServeStatus>
    requires { ForSome (J.told journal) (λ entries. entries ≡ []) }
    ensures pass { IfOk result (λ made. IsPassOf geometry_of (arc_value made.0) made.1) }
    ensures geometry { IfOk result (λ made. fixed_of geometry_of (arc_value made.0) ≡ geometry) }
    ensures seen { IfOk result (λ made. seen told_of made.1 ≡ J.told journal) }
    ensures refused { IfErr result (IsUnopened geometry) }
{
    let core = match Core::open(alloc, geometry, Counting::new(journal)) {
        Ok(core) => core,
        Err(error) => return Err(status_of_open(&error)),
    };
    match Turn::new(alloc, core) {
        Ok((turn, pass)) => match Arc::new(alloc, turn) {
            Ok(store) => Ok((store, pass)),
            Err(_) => Err(ServeStatus::NoMemory),
        },
        Err(_) => Err(ServeStatus::NoMemory),
    }
}

fn status_of_open<J>(error: &OpenError<J>) -> ServeStatus
    ensures { (geometry : Geometry) → IsRefusedFor geometry error.now.why → IsUnopened geometry result }
{
    match error.why {
        OpenWhy::BadGeometry(rule) => ServeStatus::Geometry(rule),
        OpenWhy::NoMemory => ServeStatus::NoMemory,
    }
}

fn status_of(error: MakeError) -> ServeStatus
    ensures { result ≡ status_of error }
{
    match error {
        MakeError::Fault => ServeStatus::MakeFault,
        MakeError::NoMemory => ServeStatus::NoMemory,
    }
}

// Makes the file and prepares it, listens, and writes the line of the port.
fn begin<M: Maker, K: Sink>(
    alloc: Global,
    options: &Options,
    maker: &mut M,
    sink: &mut K,
) -> Result<(), ServeStatus>
    ensures begun { OnOk result (HasBegun (change_of M.faults M.connections K.faults K.held
        maker.old maker.new sink.old sink.new)) }
    ensures stopped { IfErr result (Stops (change_of M.faults M.connections K.faults K.held
        maker.old maker.new sink.old sink.new)) }
{
    match begin_listening(options, maker) {
        Ok(port) => write_listening(alloc, port, sink),
        Err(error) => Err(status_of(error)),
    }
}

fn begin_listening<M: Maker>(options: &Options, maker: &mut M) -> Result<u16, MakeError>
    ensures tried { Tried (M.faults maker.old) (M.faults maker.new) result }
    ensures connections { M.connections maker.new ≡ M.connections maker.old }
{
    let geometry = options.geometry;
    maker.device(
        options.path.as_str(),
        geometry.pages,
        geometry.page_size,
        true,
    )?;
    maker.listen(options.listen.as_str(), options.port, options.idle_timeout)
}

fn write_listening<K: Sink>(alloc: Global, port: u16, sink: &mut K) -> Result<(), ServeStatus>
    ensures written { OnOk result (IsWritten (listening_text port) (K.held sink.old) (K.held sink.new)) }
    ensures kept { K.faults sink.old ≤ K.faults sink.new }
    ensures failed { IfErr result (IsUnwritten (K.faults sink.old) (K.faults sink.new)) }
{
    let Ok(line) = listening_line(alloc, port) else {
        return Err(ServeStatus::NoMemory);
    };
    match write_all(sink, &line) {
        Ok(()) => Ok(()),
        Err(SinkFault) => Err(ServeStatus::SinkFault),
    }
}

// Starts the threads, has as many connections served as there are to be, and stops the threads.
fn serve_all<
    R: Threads + Wait + Copy + Send + 'static,
    J: Journal + Send + Drop + 'static,
    M: Maker,
>(
    rt: &R,
    alloc: Global,
    store: &Store<J>,
    pass: &mut Pass<Core<J>>,
    options: &Options,
    maker: &mut M,
) -> Result<(), MakeError>
    requires { IsPassOf geometry_of (arc_value store.now) pass.old }
    ensures pass { IsPassOf geometry_of (arc_value store.now) pass.new }
    ensures seen { seen told_of pass.new ≡ seen told_of pass.old }
    ensures tried { Tried (M.faults maker.old) (M.faults maker.new) result }
    ensures accepted { OnOk result (IsAccepted options.now.connections
        (M.connections maker.old) (M.connections maker.new)) }
{
    let keeper = match new_keeper(store, pass) {
        Ok(Some(keeper)) => keeper,
        _ => return Err(MakeError::NoMemory),
    };
    let Ok(crew) = Crew::start(rt, alloc, options.sessions, keeper) else {
        return Err(MakeError::NoMemory);
    };
    accept_all(rt, alloc, store, pass, &crew, options.connections, maker)?;
    crew.stop(rt);
    Ok(())
}

// Accepts so many connections, or without an end where there is no limit, and has each served.
fn accept_all<R: Wait, J: Journal + Send + Drop + 'static, M: Maker>(
    rt: &R,
    alloc: Global,
    store: &Store<J>,
    pass: &mut Pass<Core<J>>,
    crew: &Crew<J, M::S, M::K, M::C>,
    limit: Option<u32>,
    maker: &mut M,
) -> Result<(), MakeError>
    requires { IsPassOf geometry_of (arc_value store.now) pass.old }
    ensures pass { IsPassOf geometry_of (arc_value store.now) pass.new }
    ensures seen { seen told_of pass.new ≡ seen told_of pass.old }
    ensures tried { Tried (M.faults maker.old) (M.faults maker.new) result }
    ensures accepted { OnOk result (IsAccepted limit (M.connections maker.old) (M.connections maker.new)) }
{
    match limit {
        Some(limit) => accept_some(rt, alloc, store, pass, crew, limit, maker),
        None => accept_forever(rt, alloc, store, pass, crew, maker),
    }
}

fn accept_some<R: Wait, J: Journal + Send + Drop + 'static, M: Maker>(
    rt: &R,
    alloc: Global,
    store: &Store<J>,
    pass: &mut Pass<Core<J>>,
    crew: &Crew<J, M::S, M::K, M::C>,
    limit: u32,
    maker: &mut M,
) -> Result<(), MakeError>
    requires { IsPassOf geometry_of (arc_value store.now) pass.old }
    ensures pass { IsPassOf geometry_of (arc_value store.now) pass.new }
    ensures seen { seen told_of pass.new ≡ seen told_of pass.old }
    ensures tried { Tried (M.faults maker.old) (M.faults maker.new) result }
    ensures accepted { OnOk result (M.connections maker.new ≡ count_after limit (M.connections maker.old)) }
{
    let mut left = limit;
    'connections: while left > 0 {
        accept_one(rt, alloc, store, pass, crew, maker)?;
        left -= 1;
    }
    Ok(())
}

fn accept_forever<R: Wait, J: Journal + Send + Drop + 'static, M: Maker>(
    rt: &R,
    alloc: Global,
    store: &Store<J>,
    pass: &mut Pass<Core<J>>,
    crew: &Crew<J, M::S, M::K, M::C>,
    maker: &mut M,
) -> Result<(), MakeError>
    requires { IsPassOf geometry_of (arc_value store.now) pass.old }
    ensures pass { IsPassOf geometry_of (arc_value store.now) pass.new }
    ensures seen { seen told_of pass.new ≡ seen told_of pass.old }
    ensures tried { Tried (M.faults maker.old) (M.faults maker.new) result }
    ensures endless { OnOk result ⊥ }
{
    'connections: for _ in rt.forever() {
        accept_one(rt, alloc, store, pass, crew, maker)?;
    }
    unreachable!()
}

// Accepts a connection, and has it served with a pass of its own. It is closed where there is none.
fn accept_one<R: Wait, J: Journal + Send + Drop + 'static, M: Maker>(
    rt: &R,
    alloc: Global,
    store: &Store<J>,
    pass: &mut Pass<Core<J>>,
    crew: &Crew<J, M::S, M::K, M::C>,
    maker: &mut M,
) -> Result<(), MakeError>
    requires { IsPassOf geometry_of (arc_value store.now) pass.old }
    ensures pass { IsPassOf geometry_of (arc_value store.now) pass.new }
    ensures seen { seen told_of pass.new ≡ seen told_of pass.old }
    ensures tried { Tried (M.faults maker.old) (M.faults maker.new) result }
    ensures accepted { OnOk result (M.connections maker.new ≡ next_count (M.connections maker.old)) }
{
    let (source, sink) = maker.accept()?;
    let clock = maker.clock();
    match new_job(store, pass, source, sink, clock) {
        Ok(Some(job)) => {
            crew.give(rt, alloc, job);
            Ok(())
        }
        Ok(None) => Ok(()),
        Err(AllocError) => Err(MakeError::NoMemory),
    }
}

// The last lock turn, and what is written at the end.
fn end<R: Wait, J: Recorded + Drop, K: Sink>(
    rt: &R,
    alloc: Global,
    store: &Store<Counting<J>>,
    pass: &mut Pass<Core<Counting<J>>>,
    sink: &mut K,
) -> ServeStatus
    requires { IsPassOf geometry_of (arc_value store.now) pass.old }
    ensures { EndsLast (fixed_of geometry_of (arc_value store.now)) (seen told_of pass.old) (K.faults sink.old)
        (K.faults sink.new) (K.held sink.old) (K.held sink.new) result }
{
    let Ok(out) = last_turn(rt, alloc, &**store, pass) else {
        return ServeStatus::NoMemory;
    };
    match write_all(sink, &out) {
        Ok(()) => ServeStatus::Done,
        Err(SinkFault) => ServeStatus::SinkFault,
    }
}

fn last_turn<R: Wait, J: Recorded + Drop>(
    rt: &R,
    alloc: Global,
    store: &Turn<Core<Counting<J>>>,
    pass: &mut Pass<Core<Counting<J>>>,
) -> Result<Vec<u8>, AllocError>
    requires { IsPassOf geometry_of store.now pass.old }
    ensures { IfOk result (λ out. IsLastText (fixed_of geometry_of store.now) (seen told_of pass.old) out.items) }
{
    let mut held = store.enter(rt, pass);
    let out = closing_output(alloc, held.state());
    held.leave();
    out
}
