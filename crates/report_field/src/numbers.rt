// Numbers as the report spells them.
ghost use Rattle.std.specs.Prelude.{◌≡◌, ℕ, ◌≤◌, List, length};
ghost use Rattle.report_spec.specs.Text.{decimal, signed};

use itoa::Buffer;

// A number of 64 bits, in decimal; a minus sign stands before a negative one.
pub trait Spelled: Copy {
    ghost spelling: { Self → List ℕ };

    fn spell(self, buffer: &mut Buffer) -> &str
        ensures { (result.now ≡ spelling self) × (length (spelling self) ≤ 20) };
}

impl Spelled for u64 {
    ghost spelling = { decimal };

    fn spell(self, buffer: &mut Buffer) -> &str {
        buffer.format(self) // its digits
    }
}

impl Spelled for i64 {
    ghost spelling = { signed };

    fn spell(self, buffer: &mut Buffer) -> &str {
        buffer.format(self) // its sign and digits
    }
}
