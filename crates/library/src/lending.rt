// What lends a value.
ghost use Rattle.std.specs.Prelude.{◌≡◌};

// A reference, shared or to be changed.
pub trait Lends {
    type Target;

    // The value that is lent.
    ghost lent: { Self → Self.Target };

    fn target(&self) -> &Self::Target
        ensures { result.now ≡ lent self.now };
}

impl<T> Lends for &T {
    type Target = T;

    ghost lent = { λ reference. reference.now };

    fn target(&self) -> &T {
        *self
    }
}

impl<T> Lends for &mut T {
    type Target = T;

    ghost lent = { λ reference. reference.now };

    fn target(&self) -> &T {
        &**self
    }
}
