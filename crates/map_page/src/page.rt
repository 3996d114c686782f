//! The page of a picture.

ghost use Rattle.std.specs.Prelude.{◌≡◌, ◌++◌, IfOk};
ghost use Rattle.map_page.specs.Pages.{is_picture, page_bytes};

use crate::head::HEAD;
use crate::tail::TAIL;
use map_base::NoMemory;
use std::alloc::Global;

/// The page of the picture `svg`: the head, the bytes of the picture as they are, the tail.
pub fn page_of(alloc: Global, svg: &[u8]) -> Result<Vec<u8>, NoMemory>
    ensures { IfOk result (λ page. page.items ≡ page_bytes svg.now) }
{
    joined(alloc, HEAD.as_bytes(), svg, TAIL.as_bytes())
}

/// Whether these bytes are a picture of octimap, a map or a poster: by the first of them.
#[tactic(auto, unfolding(crate::specs::Pages::is_picture))]
pub fn is_picture(bytes: &[u8]) -> bool
    ensures { result ≡ is_picture bytes.now }
{
    bytes.starts_with(b"<svg xmlns=\"http://www.w3.org/2000/svg\" version=\"1.1\" viewBox=\"")
}

/// Three runs of bytes, one after another.
fn joined(alloc: Global, first: &[u8], second: &[u8], third: &[u8]) -> Result<Vec<u8>, NoMemory>
    ensures { IfOk result (λ whole. whole.items ≡ first.now ++ second.now ++ third.now) }
{
    let mut whole = Vec::new(alloc);
    whole.extend_from_slice(first)?;
    whole.extend_from_slice(second)?;
    whole.extend_from_slice(third)?;
    Ok(whole)
}
