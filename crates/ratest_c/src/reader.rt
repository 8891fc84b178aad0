//! The numbers and the fields of a request.

ghost use Rattle.std.specs.Prelude.{◌≡◌, None, IfOk, IsErrOf};
ghost use Rattle.ratest_c.specs.Frames.{Takes, number_at, field_at, text_at};

use crate::fault::Fault;

/// What is left of a request.
#[derive(Clone, Copy)]
pub(crate) struct Reader<'a> {
    pub(crate) rest: &'a [u8],
}

impl<'a> Reader<'a> {
    /// The next four bytes as a number, the lowest first.
    pub(crate) fn number(&mut self) -> Result<u32, Fault>
        ensures ok { IfOk result (λ n. Takes (number_at self.old.rest.now) n self.new.rest.now) }
        ensures err { IsErrOf result Fault.Malformed → number_at self.old.rest.now ≡ None }
    {
        let bytes = self.rest;
        match bytes {
            [a, b, c, d, rest @ ..] => {
                self.rest = rest;
                Ok(*a as u32 + 256 * (*b as u32) + 65536 * (*c as u32) + 16777216 * (*d as u32))
            }
            _ => Err(Fault::Malformed),
        }
    }

    /// The next field.
    pub(crate) fn field(&mut self) -> Result<&'a [u8], Fault>
        ensures ok { IfOk result (λ field. Takes (field_at self.old.rest.now) field.now self.new.rest.now) }
        ensures err { IsErrOf result Fault.Malformed → field_at self.old.rest.now ≡ None }
    {
        let length = self.number()? as usize;
        let bytes = self.rest;
        if length > bytes.len() {
            return Err(Fault::Malformed);
        }
        let (field, rest) = bytes.split_at(length);
        self.rest = rest;
        Ok(field)
    }

    /// The next field, which has to be UTF-8.
    pub(crate) fn text(&mut self) -> Result<&'a str, Fault>
        ensures ok { IfOk result (λ text. Takes (text_at self.old.rest.now) text.now self.new.rest.now) }
        ensures err { IsErrOf result Fault.Malformed → text_at self.old.rest.now ≡ None }
    {
        match std::str::from_utf8(self.field()?) {
            Ok(text) => Ok(text),
            Err(_) => Err(Fault::Malformed),
        }
    }
}
