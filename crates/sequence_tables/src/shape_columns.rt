//! The columns of `shapes.txt`.

/// Where the columns of `shapes.txt` stand in its rows, each as far as it is there.
#[derive(Clone, Copy)]
pub(crate) struct ShapeColumns {
    pub(crate) id: Option<usize>,
    pub(crate) lat: Option<usize>,
    pub(crate) lon: Option<usize>,
    pub(crate) sequence: Option<usize>,
}
