//! The columns of `trips.txt`.

/// Where the columns of `trips.txt` stand in its rows, each as far as it is there.
#[derive(Clone, Copy)]
pub(crate) struct TripColumns {
    pub(crate) route: Option<usize>,
    pub(crate) id: Option<usize>,
    pub(crate) shape: Option<usize>,
}
