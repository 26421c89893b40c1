// At most four values in their order, held in the value itself, so no memory is taken for them.
ghost use Rattle.std.specs.Prelude.{◌≡◌, ◌<◌, ◌≤◌, ◌∷◌, ◌++◌, [], IfSome, length, slice_get};
ghost use Rattle.std.specs.Option.{option_copied};
ghost use Rattle.sp_base.specs.Few.{split_first};
ghost use Rattle.sp_base.specs.declared.limits.TheConstants.{MAX_MESSAGES};

use crate::MAX_MESSAGES;
use std::marker::Model;

/// At most four values. A contract sees their list.
#[derive(Debug, Drop)]
pub struct Four<T> {
    few: Few<T>,
}

#[derive(Debug, Drop)]
enum Few<T> {
    Zero,
    One(T),
    Two(T, T),
    Three(T, T, T),
    All(T, T, T, T),
}

impl<T> Model for Four<T> {
    ghost use Rattle.std.specs.Prelude.{List};
    ghost use Rattle.sp_base.specs.Few.{as_items};

    ghost Value = { List T };

    ghost view = { λ f. as_items f.few };
}

impl<T> Four<T> {
    /// No value.
    pub fn new() -> Four<T>
        ensures { result ≡ [] }
    {
        Four { few: Few::Zero }
    }

    /// How many there are.
    pub fn len(&self) -> usize
        ensures count { result ≡ length self.now }
        ensures few { result ≤ MAX_MESSAGES }
    {
        match &self.few {
            Few::Zero => 0,
            Few::One(_) => 1,
            Few::Two(_, _) => 2,
            Few::Three(_, _, _) => 3,
            Few::All(_, _, _, _) => 4,
        }
    }

    /// The value in this place, counted from 0. None exactly where there are no more than so many.
    pub fn get(&self, place: usize) -> Option<&T>
        ensures value { option_copied result ≡ slice_get self.now place }
        ensures within { IfSome result (λ _. place < length self.now) }
        ensures few { length self.now ≤ MAX_MESSAGES }
    {
        match (&self.few, place) {
            (Few::One(x), 0) => Some(x),
            (Few::Two(x, _), 0) => Some(x),
            (Few::Two(_, x), 1) => Some(x),
            (Few::Three(x, _, _), 0) => Some(x),
            (Few::Three(_, x, _), 1) => Some(x),
            (Few::Three(_, _, x), 2) => Some(x),
            (Few::All(x, _, _, _), 0) => Some(x),
            (Few::All(_, x, _, _), 1) => Some(x),
            (Few::All(_, _, x, _), 2) => Some(x),
            (Few::All(_, _, _, x), 3) => Some(x),
            _ => None,
        }
    }
}

impl<T: Drop> Four<T> {
    /// The values with one more at their end.
    pub fn with(self, last: T) -> Four<T>
        requires { length self < MAX_MESSAGES }
        ensures { result ≡ self ++ last ∷ [] }
    {
        let few = match self.few {
            Few::Zero => Few::One(last),
            Few::One(a) => Few::Two(a, last),
            Few::Two(a, b) => Few::Three(a, b, last),
            Few::Three(a, b, c) => Few::All(a, b, c, last),
            Few::All(_, _, _, _) => unreachable!(),
        };
        Four { few }
    }

    /// The values with one more before them.
    pub fn led_by(self, first: T) -> Four<T>
        requires { length self < MAX_MESSAGES }
        ensures { result ≡ first ∷ self }
    {
        let few = match self.few {
            Few::Zero => Few::One(first),
            Few::One(a) => Few::Two(first, a),
            Few::Two(a, b) => Few::Three(first, a, b),
            Few::Three(a, b, c) => Few::All(first, a, b, c),
            Few::All(_, _, _, _) => unreachable!(),
        };
        Four { few }
    }

    /// The first value and those after it. None exactly where there is none.
    pub fn split(self) -> Option<(T, Four<T>)>
        ensures { result ≡ split_first self }
    {
        match self.few {
            Few::Zero => None,
            Few::One(a) => Some((a, Four { few: Few::Zero })),
            Few::Two(a, b) => Some((a, Four { few: Few::One(b) })),
            Few::Three(a, b, c) => Some((
                a,
                Four {
                    few: Few::Two(b, c),
                },
            )),
            Few::All(a, b, c, d) => Some((
                a,
                Four {
                    few: Few::Three(b, c, d),
                },
            )),
        }
    }
}
