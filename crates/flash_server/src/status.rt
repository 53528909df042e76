ghost use Rattle.std.specs.Prelude.{◌≡◌};
ghost use Rattle.flash_server.specs.Statuses.{check_end, exit_status, serve_end, trace_end};

use flash_check::CheckStatus;
use flash_serve::ServeStatus;
use flash_trace::Status;

/// How the program ends.
#[derive(Clone, Copy)]
pub enum End {
    /// All of the output was written, and a journal that was checked is legal.
    Done,
    /// A journal that was checked is illegal.
    Illegal,
    /// The words are wrong.
    Usage,
    /// The words of `serve` are wrong, and it was said why.
    Refused,
    /// The sizes of the store break the rule of this number.
    Geometry(u32),
    /// The script or the journal has a bad line.
    BadLine,
    /// Standard input failed.
    SourceFault,
    /// Standard output failed.
    SinkFault,
    /// The device failed as it was prepared.
    DeviceFault,
    /// Memory ran out.
    NoMemory,
    /// The file or the network failed, and it was said how.
    MakeFault,
}

/// How the program ends after a trace that ended so.
pub fn trace_end(status: Status) -> End
    ensures { result ≡ trace_end status }
{
    match status {
        Status::Done => End::Done,
        Status::Usage => End::Usage,
        Status::Script(_) => End::BadLine,
        Status::SourceFault => End::SourceFault,
        Status::SinkFault => End::SinkFault,
        Status::PrepareFault => End::DeviceFault,
        Status::NoMemory => End::NoMemory,
    }
}

/// How the program ends after a check that ended so.
pub fn check_end(status: CheckStatus) -> End
    ensures { result ≡ check_end status }
{
    match status {
        CheckStatus::Legal(_) => End::Done,
        CheckStatus::Illegal { .. } => End::Illegal,
        CheckStatus::BadLine(_) => End::BadLine,
        CheckStatus::Usage => End::Usage,
        CheckStatus::SourceFault => End::SourceFault,
        CheckStatus::SinkFault => End::SinkFault,
        CheckStatus::NoMemory => End::NoMemory,
    }
}

/// How the program ends after a server that ended so.
pub fn serve_end(status: ServeStatus) -> End
    ensures { result ≡ serve_end status }
{
    match status {
        ServeStatus::Done => End::Done,
        ServeStatus::Usage => End::Refused,
        ServeStatus::Geometry(rule) => End::Geometry(rule),
        ServeStatus::SinkFault => End::SinkFault,
        ServeStatus::NoMemory => End::NoMemory,
        ServeStatus::MakeFault => End::MakeFault,
    }
}

/// The exit status of the program.
pub fn exit_status(end: End) -> u8
    ensures { result ≡ exit_status end }
{
    match end {
        End::Done => 0,
        End::Illegal => 1,
        End::Usage => 2,
        End::Refused => 2,
        End::Geometry(_) => 3,
        End::BadLine => 3,
        End::SourceFault => 4,
        End::SinkFault => 5,
        End::DeviceFault => 6,
        End::NoMemory => 7,
        End::MakeFault => 8,
    }
}
