// What a world was asked to do.
use va_core::Bytes;

/// One call that was carried out.
#[derive(Drop)]
pub enum Call {
    /// From this place on, so many bytes.
    Read(u64, u64),
    /// From this place on, these bytes.
    Write(u64, Bytes),
    Sync,
    /// These bytes were handed out.
    Give(Bytes),
}
