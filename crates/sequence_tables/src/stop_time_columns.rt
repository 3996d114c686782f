//! The columns of `stop_times.txt`.

/// Where the columns of `stop_times.txt` stand in its rows, each as far as it is there.
#[derive(Clone, Copy)]
pub(crate) struct StopTimeColumns {
    pub(crate) trip: Option<usize>,
    pub(crate) stop: Option<usize>,
    pub(crate) sequence: Option<usize>,
}
