//! The numbers that are read: of an introducer, a repeat, raster attributes or a colour command.

ghost use Rattle.std.specs.Prelude.{◌≡◌, ◌<◌, IsTrue, true, false, if◌then◌else◌, length, [], ◌∷◌, ◌++◌, Some, None};
ghost use Rattle.std.specs.Prelude.{nat_le};
ghost use Rattle.sixel_grammar.specs.Bytes.{is_digit as digit_test};
ghost use Rattle.sixel_grammar.specs.Faults.{ColourFields as ColourForm, is_idle};
ghost use Rattle.sixel_grammar.specs.Next.{with_digit, within as within_of};
ghost use Rattle.sixel_grammar.specs.Pending.{form_of, takes_digits};

use super::{Open, Pending};
use arrayvec::ArrayVec;

impl Pending {
    pub(crate) fn begin_repeat(&mut self)
        ensures { self.new ≡ record self.old { form = Open.RepeatNumber; number = 0 } }
    {
        self.set(Open::RepeatNumber);
        self.number = 0;
    }

    /// Opens a command with fields, none of them read yet.
    pub(crate) fn begin_fields(&mut self, form: Open)
        ensures { self.new ≡ record self.old { form = form; fields = record { items = [] }; number = 0 } }
    {
        self.set(form);
        self.fields = ArrayVec::new();
        self.number = 0;
    }

    /// Opens a select, or a definition, with this number so far.
    #[inline]
    pub(crate) fn open_select(&mut self, register: u16)
        ensures { form_of self.new ≡ ColourForm [] register }
    {
        self.begin_fields(Open::ColourFields);
        self.number = register;
    }

    /// Opens the parameters of the introducer.
    pub(crate) fn introduce(&mut self, eight: bool)
        ensures { self.new ≡ record self.old {
          form = Open.Parameters;
          eight = eight;
          parameters = record { items = [] };
          number = 0;
        } }
    {
        self.set(Open::Parameters);
        self.eight = eight;
        self.parameters = ArrayVec::new();
        self.number = 0;
    }

    pub(crate) fn add_field(&mut self)
        requires { length self.old.fields.items < 4 }
        ensures { self.new ≡ record self.old {
          number = 0;
          fields = record { items = self.old.fields.items ++ self.old.number ∷ [] };
        } }
    {
        self.fields.push(self.number);
        self.number = 0;
    }

    pub(crate) fn add_parameter(&mut self)
        requires { length self.old.parameters.items < 3 }
        ensures { self.new ≡ record self.old {
          number = 0;
          parameters = record { items = self.old.parameters.items ++ self.old.number ∷ [] };
        } }
    {
        self.parameters.push(self.number);
        self.number = 0;
    }

    /// Appends the digit to the open number, if it stays at most 65,535. Returns whether it did.
    #[inline]
    pub(crate) fn try_add_digit(&mut self, byte: u8) -> bool
        requires { IsTrue (digit_test byte) }
        ensures answer { result ≡ nat_le (with_digit self.old.number byte) 65535 }
        ensures after { self.new ≡
            (if result then record self.old { number = with_digit self.old.number byte } else self.old) }
    {
        let number = u32::from(self.number) * 10 + u32::from(byte - b'0');
        if number <= 65535 {
            self.number = number as u16;
            true
        } else {
            false
        }
    }

    /// Whether a number is open.
    #[inline]
    pub(crate) fn has_number(&self) -> bool
        ensures { result ≡ takes_digits self.now.form }
    {
        matches!(
            self.form,
            Open::Parameters | Open::RepeatNumber | Open::RasterFields | Open::ColourFields
        )
    }

    /// Appends the digit to the open number, if there is one and it stays at most 65,535. Returns whether it did.
    #[inline]
    pub(crate) fn try_take_digit(&mut self, byte: u8) -> bool
        requires { IsTrue (digit_test byte) }
        ensures taken { result ≡ true → within_of (form_of self.old) byte ≡ Some (form_of self.new, None) }
        ensures unfinished { result ≡ true → is_idle (form_of self.old) ≡ false }
        ensures open { result ≡ true → is_idle (form_of self.new) ≡ false }
        ensures refused { result ≡ false → self.new ≡ self.old }
    {
        self.has_number() && self.try_add_digit(byte)
    }

    /// Opens the next field, if a colour command is open and may have another. Returns whether it did.
    #[inline]
    pub(crate) fn try_take_separator(&mut self) -> bool
        ensures taken { result ≡ true → within_of (form_of self.old) 59 ≡ Some (form_of self.new, None) }
        ensures unfinished { result ≡ true → is_idle (form_of self.old) ≡ false }
        ensures open { result ≡ true → is_idle (form_of self.new) ≡ false }
        ensures refused { result ≡ false → self.new ≡ self.old }
    {
        match self.form {
            Open::ColourFields if self.fields.len() < 4 => {
                self.add_field();
                true
            }
            _ => false,
        }
    }

    /// Opens a repeat, if no command is open. Returns whether it did.
    #[inline]
    pub(crate) fn try_begin_repeat(&mut self) -> bool
        ensures taken { result ≡ true → within_of (form_of self.old) 33 ≡ Some (form_of self.new, None) }
        ensures idle { result ≡ true → is_idle (form_of self.old) ≡ true }
        ensures refused { result ≡ false → self.new ≡ self.old }
    {
        match self.form {
            Open::NoCommand => {
                self.begin_repeat();
                true
            }
            _ => false,
        }
    }
}
