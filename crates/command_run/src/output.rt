//! What a command is to write.

use files_door::Target;
use map_base::Sequence;

/// A target and the bytes that it is to get.
#[derive(Debug, Drop)]
pub struct Output {
    pub to: Target,
    pub bytes: Sequence<u8>,
}
