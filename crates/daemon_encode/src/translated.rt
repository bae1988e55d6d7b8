use np_syntax::Proc;

/// A process of the low program, and the number of the next binder.
#[derive(Drop)]
pub struct Translated {
    pub proc: Proc,
    pub next: u32,
}
