/// The formats of a history's text. An event's line has eight fields in the first one, and a ninth in the second, which
/// says what becomes of the event in the high-level run.
#[derive(Clone, Copy)]
pub enum Format {
    First,
    Second,
}
