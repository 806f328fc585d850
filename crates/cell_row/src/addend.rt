// What is added to cells.
ghost use Rattle.std.specs.Prelude.{◌≡◌, ℤ};

// A cell, or a point of the array.
pub trait Addend: Copy {
    ghost value: { Self → ℤ };

    // As a cell.
    fn wide(self) -> i64
        ensures { result ≡ value self };
}

impl Addend for i64 {
    ghost value = { λ x. x };

    fn wide(self) -> i64 {
        self
    }
}

impl Addend for i32 {
    ghost value = { λ x. x };

    fn wide(self) -> i64 {
        i64::from(self)
    }
}
