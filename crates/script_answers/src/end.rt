/// How the answering of a script ended.
#[derive(Clone, Copy, Debug, PartialEq, Eq)]
pub enum ScriptEnd {
    /// The script was read to its end, and all lines were written.
    Finished,
    /// The script was refused; its refusal is the last line.
    Refused,
    /// The source failed.
    Read,
    /// The sink failed.
    Write,
    /// Memory ran out.
    Memory,
}
