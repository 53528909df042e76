use flash_script::ScriptFault;

/// How a trace ended.
#[derive(Clone, Copy, Debug, PartialEq, Eq)]
pub enum Status {
    /// The whole output was written.
    Done,
    /// The words aren't `trace` or `trace --journal`. Nothing was read or written.
    Usage,
    /// The script has a bad line. The sink got that line's fault alone.
    Script(ScriptFault),
    /// A read failed. Nothing was written.
    SourceFault,
    /// A write failed. The sink got a front part of the output.
    SinkFault,
    /// The device failed as it was prepared. Nothing was written.
    PrepareFault,
    /// Memory ran out. Nothing was written.
    NoMemory,
}
