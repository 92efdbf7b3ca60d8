//! What holds of floats and their decimals.
ghost use Rattle.capnp_floats.specs.Nearby.{EachWordHasAFloat, WordsHaveOneFloat};
ghost use Rattle.capnp_floats.specs.Laws.{DecimalsAreRead, FloatsAreThere, NansAreOne, OneDecimal, OneIsNearest, TextsAreRead};

/// The decimal of a finite number is read back as the bits of this number, without its sign: they are the nearest to
/// it, and no others are.
pub fn decimals_are_read()
    ensures read { DecimalsAreRead }
    ensures only { OneIsNearest }
{}

/// A finite number has one decimal: where two are its shortest and nearest, they have the same digits and exponent.
pub fn decimals_are_unique()
    ensures { OneDecimal }
{}

/// The text of a float, a finite number or an infinity, is read as the float's bits; that of what is no number as the
/// quiet one's.
pub fn texts_are_read()
    ensures read { TextsAreRead }
    ensures nan { NansAreOne }
{}

/// Some function of words gives each word its float, or why it has none. So what is said of all such functions is said
/// of one.
pub fn words_have_floats()
    ensures { FloatsAreThere }
{}

/// The float of a word is that of the bits which rank lowest of all in range: the nearest, and of two the even ones. Each word has
/// one, or is none, or is past the range.
pub fn words_have_one_float()
    ensures one { WordsHaveOneFloat }
    ensures each { EachWordHasAFloat }
{}
