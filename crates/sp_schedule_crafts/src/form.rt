// The forms of a crafted object, and which a format has.
ghost use Rattle.std.specs.Prelude.{◌≡◌};
ghost use Rattle.sp_schedule_crafts.specs.Objects.{has_form};

use sp_base::FORMAT_1;

/// Which row of the table the words of an object have.
#[derive(Clone, Copy, Debug, PartialEq, Eq)]
pub enum ObjectForm {
    Rel,
    Ack,
    Prio,
    Weight,
    Krel,
    Kack,
}

/// Whether a format has objects of this form: those of flows on paths are of format 2 alone.
pub fn has_form(format: u8, form: ObjectForm) -> bool
    ensures { result ≡ has_form format form }
{
    match form {
        ObjectForm::Krel | ObjectForm::Kack => format != FORMAT_1,
        _ => true,
    }
}
