/// What a visit of a call is to walks under a price.
#[derive(Clone, Copy, Debug, PartialEq, Eq)]
pub(crate) struct Visit {
    /// The place of the call in the critical set, where it is critical: no walk may visit it twice.
    pub place: Option<u32>,
    /// The weighted score less the call's price. Travel is paid by the step.
    pub worth: i64,
}
