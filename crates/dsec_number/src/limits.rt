//! Settings that lie between two ends.

ghost use Rattle.std.specs.Prelude.{◌≡◌};
ghost use Rattle.dsec_number.specs.Limits.{IsBetween, IsLimited};

use std::alloc::AllocError;
use std::cmp::Ordering;
use std::marker::Model;

/// A setting's default and its ends, between which the default lies.
#[derive(Copy, Debug)]
pub struct DefMinMax<T: Ord + Copy> {
    default: T,
    min: T,
    max: T,
}

impl<T: Ord + Copy> Model for DefMinMax<T> {
    ghost use Rattle.dsec_number.specs.Limits.{IsBetween, Limits};

    ghost Value = { Limits T };

    ghost view = { λ it. record { default = it.default; min = it.min; max = it.max } };

    ghost inverse = { λ it. record { default = it.default; min = it.min; max = it.max } };

    ghost invariant = { λ it. IsBetween T.cmp it.min it.max it.default };
}

impl<T: Ord + Copy> Clone for DefMinMax<T> {
    ghost use Rattle.std.specs.Prelude.{◌≡◌, ⊤};

    ghost is_clone = { λ it clone. clone ≡ it };

    ghost is_infallible = { λ _. ⊤ };

    fn clone(&self) -> Result<Self, AllocError> {
        Ok(*self)
    }
}

impl<T: Ord + Copy> DefMinMax<T> {
    /// A setting with this default, between these ends.
    pub const fn new(default: T, min: T, max: T) -> Self
        requires { IsBetween T.cmp min max default }
        ensures { result ≡ record { default = default; min = min; max = max } }
    {
        DefMinMax { default, min, max }
    }

    /// The default, which lies between the ends.
    pub fn default(self) -> T
        ensures value { result ≡ self.default }
        ensures between { IsBetween T.cmp self.min self.max result }
    {
        self.default
    }

    /// The value where it lies between the ends, else the end that is nearest.
    pub fn limit(self, value: T) -> T
        ensures value { IsLimited T.cmp self.min self.max value result }
        ensures between { IsBetween T.cmp self.min self.max result }
    {
        if value.cmp(&self.min) == Ordering::Less {
            self.min
        } else if self.max.cmp(&value) == Ordering::Less {
            self.max
        } else {
            value
        }
    }
}
