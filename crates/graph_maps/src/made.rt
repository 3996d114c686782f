//! A map and its certificate.

/// The bytes of a map and of its certificate.
#[derive(Debug, Drop)]
pub struct Made {
    /// The map (SVG 1.1).
    pub svg: Vec<u8>,
    /// The certificate.
    pub certificate: Vec<u8>,
}
