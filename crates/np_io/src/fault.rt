/// A read or a write failed. The object that was called has counted it.
#[derive(Clone, Copy)]
pub struct Fault;
