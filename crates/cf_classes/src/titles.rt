//! What the three statements are called.
ghost use Rattle.std.specs.Prelude.{◌≡◌};
ghost use Rattle.cf_classes.specs.Titles as spec;

/// The title of the classes of fund balances, without city and year.
pub fn classes_title() -> &'static str
    ensures { result.now ≡ spec.classes_title }
{
    "Fund balance classes"
}

/// The title of the components of net position, without city and year.
pub fn components_title() -> &'static str
    ensures { result.now ≡ spec.components_title }
{
    "Net position components"
}

/// The title of the major funds, without city and year.
pub fn major_title() -> &'static str
    ensures { result.now ≡ spec.major_title }
{
    "Major funds"
}
