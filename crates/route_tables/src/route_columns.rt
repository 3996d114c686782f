//! The columns of `routes.txt`.

/// Where the columns of `routes.txt` stand in its rows, each as far as it is there.
#[derive(Clone, Copy)]
pub(crate) struct RouteColumns {
    pub(crate) id: Option<usize>,
    pub(crate) kind: Option<usize>,
    pub(crate) short_name: Option<usize>,
    pub(crate) long_name: Option<usize>,
    pub(crate) colour: Option<usize>,
}
