// A kind of value, by what its shift, same and clear mean.
ghost use Rattle.std.specs.Prelude.{◌≡◌, ℕ, Bool};
ghost use Rattle.table.specs.Kinds.{Laws};

pub trait Value: Copy {
    // The value so many sectors further on.
    ghost shift: { Self → ℕ → Self };

    // Whether two values count as one.
    ghost same: { Self → Self → Bool };

    // Whether an overlay's base shows through a value.
    ghost clear: { Self → Bool };

    fn shifted(self, by: u64) -> Self
        ensures { result ≡ shift self by };

    fn is_same(self, other: Self) -> bool
        ensures { result ≡ same self other };

    fn is_clear(self) -> bool
        ensures { result ≡ clear self };

    ghost lawful: { Laws shift same clear };
}
