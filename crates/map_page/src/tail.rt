//! What stands after the picture in a page, as page/embed.py puts it together.

/// What stands after the picture in a page.
pub const TAIL: &str = "\
\n\
<!-- the picture ends here -->\n\
";
