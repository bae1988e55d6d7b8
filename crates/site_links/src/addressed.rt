ghost use Rattle.std.specs.Prelude.{◌≡◌, ℕ};

/// What travels between sites: it knows the numbers of the site that it is from and of the site that it is for.
pub trait Addressed: Send + Drop {
    ghost sender: { Self → ℕ };

    ghost receiver: { Self → ℕ };

    /// The number of the site that it is from.
    fn from_site(&self) -> u32
        ensures { result ≡ sender self.now };

    /// The number of the site that it is for.
    fn to_site(&self) -> u32
        ensures { result ≡ receiver self.now };
}
