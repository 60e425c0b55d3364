// How far the load of an arc may go.

// The least and the greatest load that an arc may carry.
#[derive(Clone, Copy, Debug, Default, PartialEq, Eq)]
pub struct Span {
    pub low: i64,
    pub high: i64,
}
