//! That types are in an order. These calls do nothing when they run; what they promise are laws on the declared types,
//! for a caller's proof.
ghost use Rattle.std.specs.Prelude.{◌<◌, length};
ghost use Rattle.type_order.specs.Order.{AreDeclared, IsContractive};
ghost use Rattle.type_order.specs.Subtypes.{IsBelow, forms_of};

use crate::types::Types;

impl Types {
    /// A type is below itself, where all parts of types are declared.
    pub fn is_below_itself(&self, number: usize)
        requires declared { AreDeclared (forms_of self.now) }
        requires within { number < length (forms_of self.now) }
        ensures { IsBelow (forms_of self.now) number number }
    {}

    /// A type that is below a second one is below what that is below, where no type is a union of itself through unions
    /// alone. Such a union would be below all and above all.
    pub fn is_below_through(&self, lower: usize, middle: usize, upper: usize)
        requires contractive { IsContractive (forms_of self.now) }
        requires first { IsBelow (forms_of self.now) lower middle }
        requires second { IsBelow (forms_of self.now) middle upper }
        ensures { IsBelow (forms_of self.now) lower upper }
    {}
}
