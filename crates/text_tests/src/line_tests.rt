//! A line that is written, and read word by word.

use decimal_text::{end_line, front_line, push_natural, push_next_integer, push_next_natural};
use std::test::Fail;

#[test]
fn reads_and_writes_a_line(rt: HostRuntime) -> Result<(), Fail> {
    let alloc = rt.alloc();
    let mut text = Vec::from_slice(alloc, b"walk")?;
    push_next_natural(&mut text, 1_000_000_000_000_000)?;
    push_next_integer(&mut text, -10)?;
    text.push(b' ')?;
    push_natural(&mut text, 0)?;
    end_line(&mut text)?;
    let shown = str::from_utf8(text.as_slice()).ok().ok_or("text")?;
    assert_eq!(rt; shown, "walk 1000000000000000 -10 0\n");
    text.extend_from_slice(b"more")?;
    let mut numbers = Vec::new(alloc);
    let (word, rest) = front_line(text.as_slice(), &mut numbers)?.ok_or("a line")?;
    let word = str::from_utf8(word).ok().ok_or("a word")?;
    assert_eq!(rt; word, "walk");
    let rest = str::from_utf8(rest).ok().ok_or("a rest")?;
    assert_eq!(rt; rest, "more");
    let read = numbers.as_slice();
    assert_eq!(rt; read, [1_000_000_000_000_000, -10, 0].as_slice());
    Ok(())
}
