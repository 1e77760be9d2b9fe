// One cell of a tray.
use va_core::Bytes;

/// A vector with its place and its id.
#[derive(Drop)]
pub struct TrayCell {
    pub place: u32,
    pub id: u32,
    pub vector: Bytes,
}
