//! What holds of the comparisons and the forms, whatever the literals. The functions do nothing: each states a law.
ghost use Rattle.literal_order.specs.Calendar;
ghost use Rattle.literal_order.specs.Dates;
ghost use Rattle.literal_order.specs.Forms;
ghost use Rattle.literal_order.specs.Order;

/// No literal is less than itself.
pub fn less_is_irreflexive()
    ensures { Order.IsIrreflexive }
{}

/// What is less than a lesser literal is less.
pub fn less_is_transitive()
    ensures { Order.IsTransitive }
{}

/// A literal is less than another or equal to it exactly where the other isn't less.
pub fn less_or_equal_is_not_greater()
    ensures { Order.IsNotGreater }
{}

/// `less` and `less_or_equal` answer of the same literals.
pub fn none_together()
    ensures { Order.AnswerTogether }
{}

/// A literal is less than another or equal to it exactly where it is less, or has the same value.
pub fn less_or_equal_is_either()
    ensures { Order.IsBelowOrEqual }
{}

/// The well-formed literals of xsd:integer are those of its pattern (XSD 1.1 Part 2, section 3.4.13.1).
pub fn integers_are_of_their_pattern()
    ensures { Forms.IntegerForms }
{}

/// The well-formed literals of xsd:decimal are those of its pattern (XSD 1.1 Part 2, section 3.3.3.1).
pub fn decimals_are_of_their_pattern()
    ensures { Forms.DecimalForms }
{}

/// The well-formed literals of xsd:boolean are those of its pattern (XSD 1.1 Part 2, section 3.3.2.2).
pub fn booleans_are_of_their_pattern()
    ensures { Forms.BooleanForms }
{}

/// The numbers of days follow each other through the calendar.
pub fn days_follow()
    ensures { Calendar.DaysFollow }
{}

/// A dateTime at the end of a day, `T24:00:00`, is the start of the next day (XSD 1.1 Part 2, section 3.3.7.1).
pub fn day_ends_at_next()
    ensures { Dates.EndsAtNext }
{}
