// What can stand behind a name: numbers in decimal, and a flag as 0 or 1. An `impl` for each type, alike but for the types: one for all
// that go into a `u64` would leave out `usize`, which std does not turn into one, and the signed ones.
ghost use Rattle.std.specs.Prelude.{ℕ, List};
ghost use Rattle.text.specs.Text.{decimal, signed, flag};
ghost use Rattle.text.specs.Putting.{Puts};

use crate::Text;

pub trait Shown: Copy {
    ghost shown: { Self → List ℕ };

    fn put(self, text: &mut Text)
        ensures { Puts text.old (shown self) text.new };
}

impl Shown for u64 {
    ghost shown = { decimal };

    fn put(self, text: &mut Text) {
        text.put_decimal(self);
    }
}

impl Shown for u32 {
    ghost shown = { decimal };

    fn put(self, text: &mut Text) {
        text.put_decimal(u64::from(self));
    }
}

impl Shown for u16 {
    ghost shown = { decimal };

    fn put(self, text: &mut Text) {
        text.put_decimal(u64::from(self));
    }
}

impl Shown for u8 {
    ghost shown = { decimal };

    fn put(self, text: &mut Text) {
        text.put_decimal(u64::from(self));
    }
}

impl Shown for usize {
    ghost shown = { decimal };

    fn put(self, text: &mut Text) {
        text.put_decimal(self as u64);
    }
}

impl Shown for i32 {
    ghost shown = { signed };

    fn put(self, text: &mut Text) {
        text.put_signed(self);
    }
}

impl Shown for i8 {
    ghost shown = { signed };

    fn put(self, text: &mut Text) {
        text.put_signed(i32::from(self));
    }
}

impl Shown for bool {
    ghost shown = { flag };

    fn put(self, text: &mut Text) {
        text.put_decimal(u64::from(self));
    }
}
